// The bars of the gates in a panel, and its steps.
ghost use Rattle.text.specs.Text.{Puts};
ghost use Rattle.panel_bars.specs.Bars.{bars_text, older_bars_text, steps_text};

use bar_paths::put_each_bar;
use gates::Gates;
use text::{Writer, put};

// Those of the program, each with a thick edge where it starts.
pub fn put_bars(out: &mut Writer, bars: Gates)
    ensures { Puts out.old (bars_text bars) out.new }
{
    put_each_bar(
        out,
        b"<path class='g' d='M",
        b" 0V-1500h15V0h15V-1500H",
        bars,
    )
}

// Those of an older program, which lie beneath.
pub fn put_older_bars(out: &mut Writer, bars: Gates)
    ensures { Puts out.old (older_bars_text bars) out.new }
{
    put_each_bar(out, b"<path class='u' d='M", b" 0V-1800H", bars);
}

pub fn put_steps(out: &mut Writer)
    ensures { Puts out.old steps_text out.new }
{
    put(
        out,
        b"<path class='v' d='M1250-2500V0M2500-2500V0M3750-2500V0'/><text class='m' x='625' y='220'>1</text><text class='m' x='1875' y='220'>2</text><text class='m' x='3125' y='220'>3</text><text class='m' x='4375' y='220'>4</text>",
    )
}
