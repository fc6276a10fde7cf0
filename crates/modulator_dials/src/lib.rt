// The lines of the envelopes and LFOs that say what to dial in, from a generator's first byte on. Without an older
// program both blocks are the same.
#![tactic(auto)]

ghost use Rattle.std.specs.Prelude.{◌+◌, ◌<◌};
ghost use Rattle.text.specs.Text.{Puts};
ghost use Rattle.code_bytes.specs.Bytes.{byte_at, block_length, slew_place, release_curve_place};
ghost use Rattle.modulator_dials.specs.Modulators.{envelope_dials, lfo_dials, lfo_other_dials};

use code_bytes::{
    ATTACK_CURVE, DECAY, DECAY_CURVE, KEY_SYNC, RELEASE, RELEASE_CURVE, SHAPE, SLEW, SUSTAIN,
    SUSTAIN_CURVE,
};
use dial_lines::{put_curved, put_plain};
use dial_words::{put_shape, put_switch};
use text::Writer;

// The places of an LFO's bytes that no curve reads, counted from its first byte, the rate.
const ARP_SYNC: usize = 4;

const MONO_MODE: usize = 5;

pub fn envelope_dials(out: &mut Writer, older: &[u8], block: &[u8], from: usize)
    requires { from + release_curve_place < block_length }
    ensures { Puts out.old (envelope_dials (byte_at older.now) (byte_at block.now) from) out.new }
{
    put_curved(
        out,
        1300,
        b"Attack",
        older,
        block,
        from,
        from + ATTACK_CURVE,
    );
    put_curved(
        out,
        1620,
        b"Decay",
        older,
        block,
        from + DECAY,
        from + DECAY_CURVE,
    );
    put_curved(
        out,
        1940,
        b"Sustain",
        older,
        block,
        from + SUSTAIN,
        from + SUSTAIN_CURVE,
    );
    put_curved(
        out,
        2260,
        b"Release",
        older,
        block,
        from + RELEASE,
        from + RELEASE_CURVE,
    )
}

pub fn lfo_dials(out: &mut Writer, older: &[u8], block: &[u8], from: usize)
    requires { from + slew_place < block_length }
    ensures { Puts out.old (lfo_dials (byte_at older.now) (byte_at block.now) from) out.new }
{
    put_shape(out, older, block, from + SHAPE);
    put_plain(out, 1620, b"Slew rate", older, block, from + SLEW);
    put_switch(out, 1940, b"Key sync", older, block, from + KEY_SYNC);
}

// The bytes of an LFO that no curve draws.
pub fn lfo_other_dials(out: &mut Writer, older: &[u8], block: &[u8], from: usize)
    requires { from + slew_place < block_length }
    ensures { Puts out.old (lfo_other_dials (byte_at older.now) (byte_at block.now) from) out.new }
{
    put_plain(out, 1300, b"Rate", older, block, from);
    put_switch(out, 1620, b"Arp sync", older, block, from + ARP_SYNC);
    put_plain(out, 1940, b"Mono mode", older, block, from + MONO_MODE)
}
