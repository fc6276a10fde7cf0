// The shape of a code, from the bytes of a whole block.
#![tactic(auto)]

ghost use Rattle.std.specs.Prelude.{◌≡◌, length};
ghost use Rattle.code_bytes.specs.Bytes.{byte_at, block_length};
ghost use Rattle.code_shapes.specs.Shapes.{shape_of};

use code_bytes::{NOISE_LEVEL, POLE, RESONANCE};
use code_settings::{envelope_at, fade_at, lfo_at, oscillator_at};
use codes::Code;
use generator::Shape;
use settings::{high_pass, low_pass_from, noise_from};

// The shape of a code, from the bytes that the code reads.
pub fn shape_at(block: &[u8], code: Code) -> Shape
    requires { length block.now ≡ block_length }
    ensures { result ≡ shape_of code (byte_at block.now) }
{
    match code {
        Code::Envelope(id) => Shape::Envelope(envelope_at(block, id)),
        Code::Lfo(id) => Shape::Lfo(lfo_at(block, id, false)),
        Code::LfoUnipolar(id) => Shape::Lfo(lfo_at(block, id, true)),
        Code::Fade(id) => Shape::Fade(fade_at(block, id)),
        Code::LowPass => Shape::Filter(low_pass_from(block[RESONANCE], block[POLE])),
        Code::HighPass => Shape::Filter(high_pass()),
        Code::Oscillator(id) => Shape::Oscillator(oscillator_at(block, id)),
        Code::Noise => Shape::Noise(noise_from(block[NOISE_LEVEL])),
    }
}
