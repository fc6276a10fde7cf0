// The height of a shape, by the curve of its family.
#![tactic(auto)]

ghost use Rattle.std.specs.Prelude.{◌≡◌};
ghost use Rattle.shape_heights.specs.Heights.{height_of};

use curve::Height;
use envelope::envelope_height;
use fade::fade_height;
use filter::filter_height;
use generator::Shape;
use lfo::lfo_height;
use noise::noise_height;
use oscillator::oscillator_height;

// The height at a position, and the steps that a slewed LFO took to it.
pub fn shape_height(shape: Shape, t: f32) -> Height
    ensures { result ≡ height_of shape t }
{
    match shape {
        Shape::Envelope(e) => envelope_height(e, t),
        Shape::Fade(f) => fade_height(f, t),
        Shape::Lfo(l) => lfo_height(l, t),
        Shape::Filter(f) => filter_height(f, t),
        Shape::Oscillator(o) => oscillator_height(o, t),
        Shape::Noise(n) => noise_height(n, t),
    }
}
