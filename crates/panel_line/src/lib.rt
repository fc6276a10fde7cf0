// The curve of a panel: a line through its samples.
#![tactic(auto)]

ghost use Rattle.std.specs.Prelude.{◌<◌};
ghost use Rattle.text.specs.Text.{Puts};
ghost use Rattle.panel_line.specs.Line.{point_text, line_text, curve_text};

use fixed_point::nearest;
use numerals::put_decimal;
use text::{Writer, put};

// The samples between the two edges of a frame.
pub const SAMPLES: usize = 501;

fn put_point(out: &mut Writer, i: usize, h: f32)
    requires { i < 501 }
    ensures { Puts out.old (point_text i h) out.new }
{
    put_decimal(out, 10 * i as u64);
    put(out, b",-");
    put_decimal(out, nearest(h, 2500));
    put(out, b" ");
}

// A line through the samples, after its start.
pub fn put_line(out: &mut Writer, start: &[u8], heights: &[f32])
    ensures { Puts out.old (line_text start.now heights.now) out.new }
{
    put(out, start);
    for i in 0..heights.len().min(SAMPLES) {
        put_point(out, i, heights[i]);
    }
    put(out, b"'/>");
}

pub fn put_curve(out: &mut Writer, heights: &[f32])
    ensures { Puts out.old (curve_text heights.now) out.new }
{
    put_line(out, b"<polyline class='c' points='", heights);
}
