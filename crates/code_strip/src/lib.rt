// The strip of a code: heights of its shape from the left edge to the right, by the loop of its family.
#![tactic(auto)]

ghost use Rattle.std.specs.Prelude.{◌≡◌, ◌≤◌, length};
ghost use Rattle.strip.specs.Strip.{filled_of, step_sum};
ghost use Rattle.code_bytes.specs.Bytes.{byte_at, block_length, lfo_first};
ghost use Rattle.code_settings.specs.Settings.{lfo_at};
ghost use Rattle.code_shapes.specs.Shapes.{shape_of};

use code_bytes::{NOISE_LEVEL, POLE, RESONANCE};
use code_settings::{envelope_at, fade_at, lfo_at, oscillator_at};
use codes::{Code, EnvelopeId, LfoId};
use curve_strip::{WIDE_SAMPLES, Wide, fill_curve};
use generator::Shape;
use lfo_strip::fill_lfo;
use settings::{high_pass, low_pass_from, noise_from};

// ---- the strips of envelopes and of LFOs. The settings are made next to their loop: handed on, they would be copied, which waits for the stores that made them.
fn strip_envelope(block: &[u8], id: EnvelopeId, out: &mut [f32]) -> u32
    requires { (length block.now ≡ block_length) × (2 ≤ length out.old) × (length out.old ≤ 4096) }
    ensures { (result ≡ step_sum (shape_of (Code.Envelope id) (byte_at block.now)) (length out.old) (length out.old)) × (out.new ≡ filled_of (shape_of (Code.Envelope id) (byte_at block.now)) (length out.old) (length out.old) out.old) }
{
    if out.len() < WIDE_SAMPLES {
        return fill_curve(envelope_at(block, id), out);
    }
    fill_curve(Wide(envelope_at(block, id)), out)
}

fn strip_lfo(block: &[u8], id: LfoId, unipolar: bool, out: &mut [f32]) -> u32
    requires { (length block.now ≡ block_length) × (2 ≤ length out.old) × (length out.old ≤ 4096) }
    ensures { (result ≡ step_sum (Shape.Lfo (lfo_at (byte_at block.now) (lfo_first id) unipolar)) (length out.old) (length out.old)) × (out.new ≡ filled_of (Shape.Lfo (lfo_at (byte_at block.now) (lfo_first id) unipolar)) (length out.old) (length out.old) out.old) }
{
    fill_lfo(lfo_at(block, id, unipolar), out)
}

// The strip of a code's shape, which is never stored. The caller has tested both lengths.
pub fn strip_at(block: &[u8], code: Code, out: &mut [f32]) -> u32
    requires { (length block.now ≡ block_length) × (2 ≤ length out.old) × (length out.old ≤ 4096) }
    ensures { (result ≡ step_sum (shape_of code (byte_at block.now)) (length out.old) (length out.old)) × (out.new ≡ filled_of (shape_of code (byte_at block.now)) (length out.old) (length out.old) out.old) }
{
    match code {
        Code::Envelope(id) => strip_envelope(block, id, out),
        Code::Lfo(id) => strip_lfo(block, id, false, out),
        Code::LfoUnipolar(id) => strip_lfo(block, id, true, out),
        Code::Fade(id) => match id {
            LfoId::One => fill_curve(fade_at(block, LfoId::One), out),
            LfoId::Two => fill_curve(fade_at(block, LfoId::Two), out),
        },
        Code::LowPass => fill_curve(low_pass_from(block[RESONANCE], block[POLE]), out),
        Code::HighPass => fill_curve(high_pass(), out),
        Code::Oscillator(id) => fill_curve(oscillator_at(block, id), out),
        Code::Noise => fill_curve(noise_from(block[NOISE_LEVEL]), out),
    }
}
