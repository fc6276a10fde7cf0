// The height of a code, from the bytes of a whole block. What is promised of every shape and of every code stands beside it.
#![tactic(auto)]

ghost use Rattle.std.specs.Prelude.{◌≡◌, length};
ghost use Rattle.shape_heights.specs.Heights.{height_of};
ghost use Rattle.code_bytes.specs.Bytes.{byte_at, block_length};
ghost use Rattle.code_shapes.specs.Shapes.{shape_of};

use code_bytes::{NOISE_LEVEL, POLE, RESONANCE};
use code_settings::{envelope_at, fade_at, lfo_at, oscillator_at};
use codes::{Code, LfoId, OscillatorId};
use curve::Height;
use envelope::envelope_height;
use fade::fade_height;
use filter::filter_height;
use lfo::lfo_height;
use noise::noise_height;
use oscillator::oscillator_height;
use settings::{high_pass, low_pass_from, noise_from};

// The height of a code's shape, which is never stored: a single height so takes as long as its curve. The ids of cheap curves are matched here, so that their bytes are constants.
pub fn height_at(block: &[u8], code: Code, t: f32) -> Height
    requires { length block.now ≡ block_length }
    ensures { result ≡ height_of (shape_of code (byte_at block.now)) t }
{
    match code {
        Code::Envelope(id) => envelope_height(envelope_at(block, id), t),
        Code::Lfo(id) => lfo_height(lfo_at(block, id, false), t),
        Code::LfoUnipolar(id) => lfo_height(lfo_at(block, id, true), t),
        Code::Fade(id) => match id {
            LfoId::One => fade_height(fade_at(block, LfoId::One), t),
            LfoId::Two => fade_height(fade_at(block, LfoId::Two), t),
        },
        Code::LowPass => filter_height(low_pass_from(block[RESONANCE], block[POLE]), t),
        Code::HighPass => filter_height(high_pass(), t),
        Code::Oscillator(id) => match id {
            OscillatorId::One => oscillator_height(oscillator_at(block, OscillatorId::One), t),
            OscillatorId::Two => oscillator_height(oscillator_at(block, OscillatorId::Two), t),
        },
        Code::Noise => noise_height(noise_from(block[NOISE_LEVEL]), t),
    }
}
