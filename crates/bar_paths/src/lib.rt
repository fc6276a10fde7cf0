// The path of each bar of the gates in a panel.
#![tactic(auto)]

ghost use Rattle.std.specs.Prelude.{◌<◌, min};
ghost use Rattle.text.specs.Text.{Puts};
ghost use Rattle.bar_paths.specs.Paths.{corner_text, bar_text, some_bars};

use fixed_point::nearest;
use gates::{GATES_DRAWN, Gate, Gates};
use numerals::put_decimal;
use text::{Writer, put};

// Where a bar starts or ends, after the way there.
fn put_corner(out: &mut Writer, way: &[u8], place: f32)
    ensures { Puts out.old (corner_text way.now place) out.new }
{
    put(out, way);
    put_decimal(out, nearest(place / 4.0, 5000));
}

fn put_bar(out: &mut Writer, start: &[u8], up: &[u8], bar: Gate)
    ensures { Puts out.old (bar_text start.now up.now bar) out.new }
{
    put_corner(out, start, bar.start);
    put_corner(out, up, bar.end);
    put(out, b"V0Z'/>");
}

pub fn put_each_bar(out: &mut Writer, start: &[u8], up: &[u8], bars: Gates)
    ensures { Puts out.old (some_bars start.now up.now bars (min bars.count 4)) out.new }
{
    for i in 0..bars.count.min(GATES_DRAWN) {
        put_bar(out, start, up, bars.places[i]);
    }
}
