// The lines of a panel that say what to dial in, for each code: what differs from an older block says what it was.
// Without an older program both are the same block.
#![tactic(auto)]

ghost use Rattle.text.specs.Text.{Puts};
ghost use Rattle.code_bytes.specs.Bytes.{byte_at};
ghost use Rattle.dials.specs.Dials.{dials_of};

use code_bytes::{NOISE_LEVEL, OSCILLATOR_TWO_LEVEL, envelope_first, fade_byte, lfo_first};
use codes::{Code, OscillatorId};
use dial_lines::put_dial;
use modulator_dials::{envelope_dials, lfo_dials, lfo_other_dials};
use text::{Writer, put};
use tone_dials::{low_pass_dials, oscillator_dials};

// The lines of a code.
pub fn put_dials(out: &mut Writer, older: &[u8], block: &[u8], code: Code)
    ensures { Puts out.old (dials_of code (byte_at older.now) (byte_at block.now)) out.new }
{
    match code {
        Code::Envelope(id) => envelope_dials(out, older, block, envelope_first(id)),
        Code::Lfo(id) => lfo_dials(out, older, block, lfo_first(id)),
        Code::LfoUnipolar(id) => lfo_other_dials(out, older, block, lfo_first(id)),
        Code::Fade(id) => put_dial(out, b"Fade time", older, block, fade_byte(id)),
        Code::LowPass => low_pass_dials(out, older, block),
        Code::HighPass => put(
            out,
            b"<text class='d' y='1300'>6 dB an octave, fixed</text>",
        ),
        Code::Oscillator(id) => match id {
            OscillatorId::One => oscillator_dials(out, older, block),
            OscillatorId::Two => put_dial(out, b"Level", older, block, OSCILLATOR_TWO_LEVEL),
        },
        Code::Noise => put_dial(out, b"Level", older, block, NOISE_LEVEL),
    }
}
