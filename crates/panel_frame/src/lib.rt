// The frame of a panel: its place on the page, its title, the frame itself and the rest level.
#![tactic(auto)]

ghost use Rattle.std.specs.Prelude.{◌<◌};
ghost use Rattle.text.specs.Text.{Puts};
ghost use Rattle.panel_frame.specs.Frame.{place_text, panel_end, frame_text, title_text, rest_text};

use fixed_point::nearest;
use numerals::put_decimal;
use text::{Writer, put};

// The start of panel k.
pub fn put_place(out: &mut Writer, k: u8)
    requires { k < 15 }
    ensures { Puts out.old (place_text k) out.new }
{
    put(out, b"<g transform='translate(");
    put_decimal(out, 1150 + 5600 * (k % 5) as u64);
    put(out, b" ");
    put_decimal(out, 5400 + 6050 * (k / 5) as u64);
    put(out, b")'>");
}

pub fn put_end(out: &mut Writer)
    ensures { Puts out.old panel_end out.new }
{
    put(out, b"</g>\n");
}

// The title of panel k.
pub fn put_title(out: &mut Writer, k: u8)
    ensures { Puts out.old (title_text k) out.new }
{
    put(out, b"<text class='t' y='-2930'>");
    labels::put_title(out, k);
    put(out, b"</text>");
}

pub fn put_frame(out: &mut Writer)
    ensures { Puts out.old frame_text out.new }
{
    put(out, b"<path class='f' d='M0-2500H5000V0H0Z'/>");
}

pub fn put_rest(out: &mut Writer, rest: f32)
    ensures { Puts out.old (rest_text rest) out.new }
{
    put(out, b"<path class='r' d='M0-");
    put_decimal(out, nearest(rest, 2500));
    put(out, b"H5000'/>");
}
