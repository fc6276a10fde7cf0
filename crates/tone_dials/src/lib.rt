// The lines of the low-pass filter and of oscillator 1 that say what to dial in. Without an older program both blocks
// are the same.
#![tactic(auto)]

ghost use Rattle.text.specs.Text.{Puts};
ghost use Rattle.code_bytes.specs.Bytes.{byte_at};
ghost use Rattle.tone_dials.specs.Tones.{low_pass_dials, oscillator_dials};

use code_bytes::{DEPTH, POLE, PULSE, RESONANCE, SAW, SOURCE};
use dial_lines::put_plain;
use dial_words::{put_depth, put_poles, put_source, put_switch};
use text::Writer;

pub fn low_pass_dials(out: &mut Writer, older: &[u8], block: &[u8])
    ensures { Puts out.old (low_pass_dials (byte_at older.now) (byte_at block.now)) out.new }
{
    put_plain(out, 1300, b"Resonance", older, block, RESONANCE);
    put_poles(out, older, block, POLE);
}

pub fn oscillator_dials(out: &mut Writer, older: &[u8], block: &[u8])
    ensures { Puts out.old (oscillator_dials (byte_at older.now) (byte_at block.now)) out.new }
{
    put_switch(out, 1300, b"Saw", older, block, SAW);
    put_switch(out, 1620, b"Pulse", older, block, PULSE);
    put_source(out, older, block, SOURCE);
    put_depth(out, older, block, DEPTH, SOURCE);
}
