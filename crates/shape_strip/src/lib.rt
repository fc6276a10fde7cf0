// The strip of a shape, by the loop of its family; an LFO with slew has a walk for each sample, or one along them all. The caller has tested the length.
#![tactic(auto)]

ghost use Rattle.std.specs.Prelude.{◌≡◌, true, ◌≤◌, length};
ghost use Rattle.strip.specs.Strip.{filled_of, step_sum};
ghost use Rattle.lfo_strip_once.specs.Once.{steps_once};
ghost use Rattle.shape_strip.specs.Forward.{goes_forward};

use curve_strip::{Wide, fill_curve};
use generator::Shape;
use lfo_strip::fill_lfo;
use lfo_strip_once::fill_lfo_once;

// A walk for each sample.
pub fn fill(shape: Shape, out: &mut [f32]) -> u32
    requires { (2 ≤ length out.old) × (length out.old ≤ 4096) }
    ensures { (result ≡ step_sum shape (length out.old) (length out.old)) × (out.new ≡ filled_of shape (length out.old) (length out.old) out.old) }
{
    match shape {
        Shape::Envelope(e) => fill_curve(Wide(e), out),
        Shape::Fade(f) => fill_curve(f, out),
        Shape::Lfo(l) => fill_lfo(l, out),
        Shape::Filter(f) => fill_curve(f, out),
        Shape::Oscillator(o) => fill_curve(o, out),
        Shape::Noise(n) => fill_curve(n, out),
    }
}

// One walk along all samples.
pub fn fill_once(shape: Shape, out: &mut [f32]) -> u32
    requires shape_forward { goes_forward shape ≡ true }
    requires fits { (2 ≤ length out.old) × (length out.old ≤ 4096) }
    ensures { (result ≡ steps_once shape (length out.old)) × (out.new ≡ filled_of shape (length out.old) (length out.old) out.old) }
{
    match shape {
        Shape::Lfo(l) => fill_lfo_once(l, out),
        _ => fill(shape, out),
    }
}
