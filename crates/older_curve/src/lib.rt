// The curve of an older program, beneath that of the program, where it differs.
#![tactic(auto)]

ghost use Rattle.std.specs.Prelude.{◌≡◌};
ghost use Rattle.text.specs.Text.{Puts};
ghost use Rattle.older_curve.specs.Older.{same_points, older_curve_text};

use fixed_point::nearest;
use panel_line::{SAMPLES, put_line};
use text::Writer;

// Whether two strips are drawn at the same points.
fn same_points(old: &[f32; SAMPLES], new: &[f32; SAMPLES]) -> bool
    ensures { result ≡ same_points old.now new.now 501 }
{
    for i in 0..SAMPLES {
        if nearest(old[i], 2500) != nearest(new[i], 2500) {
            return false;
        }
    }
    true
}

// The older curve lies beneath, where it differs.
pub fn put_older_curve(out: &mut Writer, old: &[f32; SAMPLES], new: &[f32; SAMPLES])
    ensures { Puts out.old (older_curve_text old.now new.now) out.new }
{
    if !same_points(old, new) {
        put_line(out, b"<polyline class='u' points='", old);
    }
}
