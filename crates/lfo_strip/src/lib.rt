// The strips of an LFO. The caller has tested the length. A loop answers the sum of the steps, which only an LFO with slew takes.
#![tactic(auto)]

ghost use Rattle.std.specs.Prelude.{◌≡◌, true, false, ◌≤◌, length};
ghost use Rattle.std.specs.Float.Ieee.{le};
ghost use Rattle.exact.specs.Binary32.{zero₃₂};
ghost use Rattle.generator.specs.declared.Shape.{Shape};
ghost use Rattle.strip.specs.Strip.{filled_of, step_sum};
ghost use Rattle.strip.proofs.Stepless.{without_steps};

use curve_strip::{Curve, fill_curve};
use generator::Shape;
use lfo::{slewed_height, unslewed_sample};
use settings::Lfo;
use strip::{last_of, sample_position};

// An LFO without slew.
#[derive(Clone, Copy)]
pub struct Unslewed {
    pub lfo: Lfo,
    ghost unslewed: { le lfo.slew zero₃₂ ≡ true },
}

impl Curve for Unslewed {
    ghost shape = { λ u. Shape.Lfo u.lfo };

    ghost stepless = { λ u t. without_steps u.lfo t u.unslewed };

    fn sample(self, t: f32) -> f32 {
        unslewed_sample(self.lfo, t)
    }
}

// An LFO with slew.
fn fill_slewed(l: Lfo, out: &mut [f32]) -> u32
    requires slewed { le l.slew zero₃₂ ≡ false }
    requires fits { (2 ≤ length out.old) × (length out.old ≤ 4096) }
    ensures { (result ≡ step_sum (Shape.Lfo l) (length out.old) (length out.old)) × (out.new ≡ filled_of (Shape.Lfo l) (length out.old) (length out.old) out.old) }
{
    let count = out.len();
    let last = last_of(count);
    let mut total: u32 = 0;
    for i in 0..count {
        let height = slewed_height(l, sample_position(i as u16, last));
        out[i] = height.height;
        total += height.steps;
    }
    total
}

pub fn fill_lfo(l: Lfo, out: &mut [f32]) -> u32
    requires { (2 ≤ length out.old) × (length out.old ≤ 4096) }
    ensures { (result ≡ step_sum (Shape.Lfo l) (length out.old) (length out.old)) × (out.new ≡ filled_of (Shape.Lfo l) (length out.old) (length out.old) out.old) }
{
    if l.slew <= 0.0 {
        return fill_curve(Unslewed { lfo: l }, out);
    }
    fill_slewed(l, out)
}
