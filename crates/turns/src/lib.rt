// A number of turns for the sampled shapes as a caller gives it, and a shape at such a number.
#![tactic(auto)]

ghost use Rattle.std.specs.Prelude.{◌≡◌};
ghost use Rattle.turns.specs.Turns.{turns_read, turned_of};

use generator::Shape;
use settings::{SampledTurns, turned_lfo};

#[tactic(auto, unfolding(crate::specs::Turns::turns_read))]
pub fn turns_read(number: u32) -> Option<SampledTurns>
    ensures { result ≡ turns_read number }
{
    match number {
        6 => Some(SampledTurns::Six),
        8 => Some(SampledTurns::Eight),
        _ => None,
    }
}

// A shape at so many turns of the sampled ones: an LFO's, and all else as it is.
#[tactic(auto, unfolding(crate::specs::Turns::turned_of))]
pub fn turned(sampled: SampledTurns, shape: Shape) -> Shape
    ensures { result ≡ turned_of sampled shape }
{
    match shape {
        Shape::Envelope(e) => Shape::Envelope(e),
        Shape::Fade(f) => Shape::Fade(f),
        Shape::Lfo(l) => Shape::Lfo(turned_lfo(sampled, l)),
        Shape::Filter(f) => Shape::Filter(f),
        Shape::Oscillator(o) => Shape::Oscillator(o),
        Shape::Noise(n) => Shape::Noise(n),
    }
}
