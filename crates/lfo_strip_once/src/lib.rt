// The strip of an LFO by one walk along it: a full step is taken once for all samples that it falls short of, and only the cut step is each sample's own.
#![tactic(auto)]

ghost use Rattle.std.specs.Prelude.{◌≡◌, true, false, ◌≤◌, length};
ghost use Rattle.std.specs.Float.Ieee.{le};
ghost use Rattle.exact.specs.Binary32.{zero₃₂};
ghost use Rattle.strip.specs.Strip.{filled_of};
ghost use Rattle.lfo_strip_once.specs.Once.{steps_once, forward};

use curve_strip::fill_curve;
use generator::Shape;
use lfo_strip::Unslewed;
use settings::Lfo;
use strip::{last_of, sample_position};
use walk::{cut_height, limit_of, start, walk_on};

// An LFO with slew. The walk goes on from sample to sample and never back, and a cut step is not kept. Answers the full steps and the cut ones.
fn fill_slewed_once(l: Lfo, out: &mut [f32]) -> u32
    requires slewed_forward { (le l.slew zero₃₂ ≡ false) × (forward l.turns ≡ true) }
    requires fits { (2 ≤ length out.old) × (length out.old ≤ 4096) }
    ensures { (result ≡ steps_once (Shape.Lfo l) (length out.old)) × (out.new ≡ filled_of (Shape.Lfo l) (length out.old) (length out.old) out.old) }
{
    let n = out.len();
    let last = last_of(n);
    let shape = l.shape;
    let limit = limit_of(l.slew);
    let mut walk = start(shape);
    for i in 0..n {
        let phase = sample_position(i as u16, last) * l.turns;
        walk = walk_on(shape, limit, walk, phase);
        out[i] = cut_height(shape, limit, walk, phase);
    }
    walk.full as u32 + n as u32
}

// An LFO. Without slew nothing is walked, and it is filled as the plain engine fills it.
pub fn fill_lfo_once(l: Lfo, out: &mut [f32]) -> u32
    requires turns_forward { forward l.turns ≡ true }
    requires fits { (2 ≤ length out.old) × (length out.old ≤ 4096) }
    ensures { (result ≡ steps_once (Shape.Lfo l) (length out.old)) × (out.new ≡ filled_of (Shape.Lfo l) (length out.old) (length out.old) out.old) }
{
    if l.slew <= 0.0 {
        return fill_curve(Unslewed { lfo: l }, out);
    }
    fill_slewed_once(l, out)
}
