// The height of an LFO: its shape at the phase, or the slew walk there.
#![tactic(auto)]

ghost use Rattle.std.specs.Prelude.{◌≡◌};
ghost use Rattle.exact.specs.Binary32.{◌⊗◌};
ghost use Rattle.curve.specs.Curve.{clamp_unit_of};
ghost use Rattle.lfo_shapes.specs.Formula.{shape_at_of};
ghost use Rattle.lfo.specs.Formula.{unslewed_of, slewed_of, lfo_height_of, phase_of};

use curve::{Height, clamp_unit, drawn, position};
use lfo_shapes::shape_at;
use settings::Lfo;
use walk::walked;

// The phase at any f32: the position, in turns.
fn phase(lfo: Lfo, t: f32) -> f32
    ensures { result ≡ phase_of lfo t }
{
    position(t) * lfo.turns
}

// The height of an LFO without slew: the shape itself, with no steps.
pub fn unslewed_height(lfo: Lfo, t: f32) -> Height
    ensures { result ≡ unslewed_of lfo t }
{
    let shape = lfo.shape;
    drawn(shape_at(shape, phase(lfo, t)))
}

// The same at a position from 0 to 1, which the samples of a strip have, without its steps.
pub fn unslewed_sample(lfo: Lfo, t: f32) -> f32
    ensures { result ≡ clamp_unit_of (shape_at_of lfo.shape (t ⊗ lfo.turns)) }
{
    let shape = lfo.shape;
    clamp_unit(shape_at(shape, t * lfo.turns))
}

// The height of an LFO with slew.
pub fn slewed_height(lfo: Lfo, t: f32) -> Height
    ensures { result ≡ slewed_of lfo t }
{
    walked(lfo, phase(lfo, t))
}

// The height of an LFO.
pub fn lfo_height(lfo: Lfo, t: f32) -> Height
    ensures { result ≡ lfo_height_of lfo t }
{
    if lfo.slew <= 0.0 {
        return unslewed_height(lfo, t);
    }
    slewed_height(lfo, t)
}
