// The settings of a code, from the bytes of a whole block.
#![tactic(auto)]

ghost use Rattle.std.specs.Prelude.{◌≡◌, length};
ghost use Rattle.settings.specs.Settings.{fade_of};
ghost use Rattle.code_bytes.specs.Bytes.{byte_at, block_length, envelope_first, lfo_first, fade_byte};
ghost use Rattle.code_settings.specs.Settings.{envelope_at, lfo_at, oscillator_at};

use code_bytes::{
    ATTACK_CURVE, DECAY, DECAY_CURVE, DEPTH, KEY_SYNC, OSCILLATOR_TWO_LEVEL, PULSE, RELEASE,
    RELEASE_CURVE, SAW, SHAPE, SLEW, SOURCE, SUSTAIN, SUSTAIN_CURVE, envelope_first, fade_byte,
    lfo_first,
};
use codes::{EnvelopeId, LfoId, OscillatorId};
use envelope_settings::envelope_from;
use settings::{
    Envelope, Fade, Lfo, Oscillator, fade_from, lfo_from, oscillator_one_from, oscillator_two_from,
};

pub fn envelope_at(block: &[u8], id: EnvelopeId) -> Envelope
    requires { length block.now ≡ block_length }
    ensures { result ≡ envelope_at (byte_at block.now) (envelope_first id) }
{
    let from = envelope_first(id);
    envelope_from(
        block[from],
        block[from + DECAY],
        block[from + SUSTAIN],
        block[from + RELEASE],
        block[from + ATTACK_CURVE],
        block[from + DECAY_CURVE],
        block[from + SUSTAIN_CURVE],
        block[from + RELEASE_CURVE],
    )
}

pub fn lfo_at(block: &[u8], id: LfoId, unipolar: bool) -> Lfo
    requires { length block.now ≡ block_length }
    ensures { result ≡ lfo_at (byte_at block.now) (lfo_first id) unipolar }
{
    let from = lfo_first(id);
    lfo_from(
        block[from + SHAPE],
        block[from + SLEW],
        block[from + KEY_SYNC],
        unipolar,
    )
}

pub fn fade_at(block: &[u8], id: LfoId) -> Fade
    requires { length block.now ≡ block_length }
    ensures { result ≡ fade_of (byte_at block.now (fade_byte id)) }
{
    let from = fade_byte(id);
    fade_from(block[from])
}

pub fn oscillator_at(block: &[u8], id: OscillatorId) -> Oscillator
    requires { length block.now ≡ block_length }
    ensures { result ≡ oscillator_at (byte_at block.now) id }
{
    match id {
        OscillatorId::One => oscillator_one_from(
            block[SOURCE],
            block[PULSE],
            block[SAW],
            block[DEPTH],
        ),
        OscillatorId::Two => oscillator_two_from(block[OSCILLATOR_TWO_LEVEL]),
    }
}
