// The names of the bytes that a generator or the arpeggio reads. Each is one of some words in a row.
#![tactic(auto)]

ghost use Rattle.text.specs.Text.{Puts};
ghost use Rattle.byte_names.specs.ByteNames.{lfo_name, envelope_name, other_name, byte_name};

use code_bytes::{
    DEPTH, ENVELOPE_SPAN, ENVELOPES, ENVELOPES_END, GATE_TIME, LFO_SPAN, LFOS_END, POLE, PULSE,
    RESONANCE, SAW, SOURCE,
};
use text::Writer;
use words::{index_of, put_word};

// Bytes with a name of their own.
const OTHERS: [u8; 7] = [
    SOURCE as u8,
    PULSE as u8,
    SAW as u8,
    DEPTH as u8,
    RESONANCE as u8,
    POLE as u8,
    GATE_TIME as u8,
];

fn put_lfo_name(out: &mut Writer, k: usize)
    ensures { Puts out.old (lfo_name k) out.new }
{
    put_word(out, b"rate|fade time|shape|key sync|slew rate", k);
}

fn put_envelope_name(out: &mut Writer, k: usize)
    ensures { Puts out.old (envelope_name k) out.new }
{
    put_word(
        out,
        b"attack|decay|sustain|release|trigger mode|attack curve|decay curve|sustain curve|release curve",
        k,
    );
}

fn put_other_name(out: &mut Writer, n: u8)
    ensures { Puts out.old (other_name n) out.new }
{
    let k = index_of(&OTHERS, n).unwrap_or(OTHERS.len());
    put_word(
        out,
        b"PWM source|pulse|saw|PWM depth|resonance|poles|gate time|level",
        k,
    );
}

// The name of a byte that a generator or the arpeggio reads.
pub fn put_byte_name(out: &mut Writer, n: u8)
    ensures { Puts out.old (byte_name n) out.new }
{
    let k = n as usize;
    if k < LFOS_END {
        return put_lfo_name(out, k % LFO_SPAN);
    }
    if k < ENVELOPES {
        return put_other_name(out, n);
    }
    if k < ENVELOPES_END {
        return put_envelope_name(out, (k - ENVELOPES) % ENVELOPE_SPAN);
    }
    put_other_name(out, n);
}
