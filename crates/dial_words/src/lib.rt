// The lines that say what to dial in whose note is a word: what the byte stands for. `n` is the byte's number in both
// blocks, as in `dial_lines`.
// Each line has a function of its own: one over the writer of the note would take eight parameters, and no line would be shorter by it.
#![tactic(auto)]

ghost use Rattle.text.specs.Text.{Puts};
ghost use Rattle.code_bytes.specs.Bytes.{byte_at};
ghost use Rattle.dial_words.specs.Words.{switch_dial, shape_dial, poles_dial, source_dial, depth_dial};

use code_bytes::byte_at;
use dial_lines::start_line;
use dial_start::end;
use text::Writer;

pub fn put_switch(out: &mut Writer, y: u64, name: &[u8], older: &[u8], block: &[u8], n: usize)
    ensures { Puts out.old (switch_dial y name.now (byte_at older.now n) (byte_at block.now n)) out.new }
{
    let b = start_line(out, y, name, older, block, n);
    labels::put_switch(out, b);
    end(out);
}

pub fn put_shape(out: &mut Writer, older: &[u8], block: &[u8], n: usize)
    ensures { Puts out.old (shape_dial (byte_at older.now n) (byte_at block.now n)) out.new }
{
    let b = start_line(out, 1300, b"Shape", older, block, n);
    labels::put_shape(out, b);
    end(out);
}

pub fn put_poles(out: &mut Writer, older: &[u8], block: &[u8], n: usize)
    ensures { Puts out.old (poles_dial (byte_at older.now n) (byte_at block.now n)) out.new }
{
    let b = start_line(out, 1620, b"Pole mode", older, block, n);
    labels::put_poles(out, b);
    end(out);
}

pub fn put_source(out: &mut Writer, older: &[u8], block: &[u8], n: usize)
    ensures { Puts out.old (source_dial (byte_at older.now n) (byte_at block.now n)) out.new }
{
    let b = start_line(out, 1940, b"PWM source", older, block, n);
    labels::put_source(out, b);
    end(out);
}

// The note of the depth depends on the byte of the source, number k.
pub fn put_depth(out: &mut Writer, older: &[u8], block: &[u8], n: usize, k: usize)
    ensures { Puts out.old (depth_dial (byte_at older.now n) (byte_at block.now n) (byte_at block.now k)) out.new }
{
    start_line(out, 2260, b"PWM depth", older, block, n);
    labels::put_depth(out, byte_at(block, k));
    end(out);
}
