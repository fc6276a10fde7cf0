// Where in a block each code finds its bytes.
#![tactic(auto)]

ghost use Rattle.std.specs.Prelude.{◌≡◌, [], ◌∷◌, ◌+◌, ◌≤◌, ◌<◌, length, take};
ghost use Rattle.code_bytes.specs.Bytes.{byte_at, block_length, slew_place, release_curve_place, envelope_first, lfo_first, fade_byte, envelope_bytes, lfo_bytes, bytes_of};

use codes::{Code, EnvelopeId, LfoId, OscillatorId};

// ---- the bytes that have a place of their own
pub const SOURCE: usize = 16;

pub const PULSE: usize = 18;

pub const SAW: usize = 19;

pub const DEPTH: usize = 25;

pub const OSCILLATOR_TWO_LEVEL: usize = 26;

pub const NOISE_LEVEL: usize = 33;

pub const RESONANCE: usize = 41;

pub const POLE: usize = 51;

pub const GATE_TIME: usize = 160;

// ---- the bytes of an LFO
// How many each LFO has; those of LFO 1 begin at byte 0, and those of LFO 2 follow.
pub const LFO_SPAN: usize = 7;

pub const LFOS_END: usize = 2 * LFO_SPAN;

// The places of those that are read, counted from its first byte, the rate.
pub const FADE_TIME: usize = 1;

pub const SHAPE: usize = 2;

pub const KEY_SYNC: usize = 3;

pub const SLEW: usize = 6;

// ---- the bytes of an envelope
// Where those of the first begin, and how many each has.
pub const ENVELOPES: usize = 53;

pub const ENVELOPE_SPAN: usize = 9;

pub const ENVELOPES_END: usize = ENVELOPES + 3 * ENVELOPE_SPAN;

// The places of those that are read, counted from its first byte, the attack. The one before the curves is the trigger mode's.
pub const DECAY: usize = 1;

pub const SUSTAIN: usize = 2;

pub const RELEASE: usize = 3;

pub const ATTACK_CURVE: usize = 5;

pub const DECAY_CURVE: usize = 6;

pub const SUSTAIN_CURVE: usize = 7;

pub const RELEASE_CURVE: usize = 8;

// The bytes that a code reads: the first `count` of eight.
#[derive(Clone, Copy)]
pub struct Bytes {
    pub at: [u8; 8],
    pub count: usize,
}

// A byte of a block, and 0 past its end.
pub fn byte_at(block: &[u8], n: usize) -> u8
    ensures { result ≡ byte_at block.now n }
{
    if n < block.len() {
        return block[n];
    }
    0
}

// ---- where a generator's bytes begin, all of them in the block
pub fn envelope_first(id: EnvelopeId) -> usize
    ensures { (result ≡ envelope_first id) × (result + release_curve_place < block_length) }
{
    match id {
        EnvelopeId::Vca => ENVELOPES,
        EnvelopeId::Vcf => ENVELOPES + ENVELOPE_SPAN,
        EnvelopeId::Mod => ENVELOPES + 2 * ENVELOPE_SPAN,
    }
}

pub fn lfo_first(id: LfoId) -> usize
    ensures { (result ≡ lfo_first id) × (result + slew_place < block_length) }
{
    match id {
        LfoId::One => 0,
        LfoId::Two => LFO_SPAN,
    }
}

pub fn fade_byte(id: LfoId) -> usize
    ensures { (result ≡ fade_byte id) × (result < block_length) }
{
    lfo_first(id) + FADE_TIME
}

// ---- the bytes that a code reads
fn envelope_bytes(first: usize) -> Bytes
    requires { first + release_curve_place < block_length }
    ensures { (result.count ≤ length result.at) × (take result.count result.at ≡ envelope_bytes first) }
{
    Bytes {
        at: [
            first as u8,
            (first + DECAY) as u8,
            (first + SUSTAIN) as u8,
            (first + RELEASE) as u8,
            (first + ATTACK_CURVE) as u8,
            (first + DECAY_CURVE) as u8,
            (first + SUSTAIN_CURVE) as u8,
            (first + RELEASE_CURVE) as u8,
        ],
        count: 8,
    }
}

fn lfo_bytes(first: usize) -> Bytes
    requires { first + slew_place < block_length }
    ensures { (result.count ≤ length result.at) × (take result.count result.at ≡ lfo_bytes first) }
{
    Bytes {
        at: [
            (first + SHAPE) as u8,
            (first + SLEW) as u8,
            (first + KEY_SYNC) as u8,
            0,
            0,
            0,
            0,
            0,
        ],
        count: 3,
    }
}

fn one_byte(n: usize) -> Bytes
    requires { n < block_length }
    ensures { (result.count ≤ length result.at) × (take result.count result.at ≡ n ∷ []) }
{
    Bytes {
        at: [n as u8, 0, 0, 0, 0, 0, 0, 0],
        count: 1,
    }
}

fn oscillator_bytes(id: OscillatorId) -> Bytes
    ensures { (result.count ≤ length result.at) × (take result.count result.at ≡ bytes_of (Code.Oscillator id)) }
{
    match id {
        OscillatorId::One => Bytes {
            at: [
                SOURCE as u8,
                PULSE as u8,
                SAW as u8,
                DEPTH as u8,
                0,
                0,
                0,
                0,
            ],
            count: 4,
        },
        OscillatorId::Two => one_byte(OSCILLATOR_TWO_LEVEL),
    }
}

pub fn bytes_of(code: Code) -> Bytes
    ensures { (result.count ≤ length result.at) × (take result.count result.at ≡ bytes_of code) }
{
    match code {
        Code::Envelope(id) => envelope_bytes(envelope_first(id)),
        Code::Lfo(id) => lfo_bytes(lfo_first(id)),
        Code::LfoUnipolar(id) => lfo_bytes(lfo_first(id)),
        Code::Fade(id) => one_byte(fade_byte(id)),
        Code::LowPass => Bytes {
            at: [RESONANCE as u8, POLE as u8, 0, 0, 0, 0, 0, 0],
            count: 2,
        },
        Code::HighPass => Bytes {
            at: [0; 8],
            count: 0,
        },
        Code::Oscillator(id) => oscillator_bytes(id),
        Code::Noise => one_byte(NOISE_LEVEL),
    }
}
