// The lines that say what to dial in, with no note or with the byte of a curve: a dial's name, its byte, and, beside a
// byte that differs from an older block's, what it was.
// `n` is the byte's number in both blocks, which are slices of any length, and no `Blocks` of `compared_blocks`: what is promised of any length
// may not change. Without an older program both are the same block.
#![tactic(auto)]

ghost use Rattle.std.specs.Prelude.{◌≡◌};
ghost use Rattle.text.specs.Text.{Puts};
ghost use Rattle.code_bytes.specs.Bytes.{byte_at};
ghost use Rattle.dial_start.specs.Start.{dial_start};
ghost use Rattle.dial_lines.specs.Lines.{plain_dial, only_dial, curve_note, curved_dial};

use code_bytes::byte_at;
use dial_start::{end, put_was, start};
use numerals::put_decimal;
use text::{Writer, put};

// ---- the lines
// The start of the line of byte n, which is the answer.
pub fn start_line(out: &mut Writer, y: u64, name: &[u8], older: &[u8], block: &[u8], n: usize) -> u8
    ensures text { Puts out.old (dial_start y name.now (byte_at older.now n) (byte_at block.now n)) out.new }
    ensures byte { result ≡ byte_at block.now n }
{
    let b = byte_at(block, n);
    start(out, y, name, byte_at(older, n), b);
    b
}

// A line with no note.
pub fn put_plain(out: &mut Writer, y: u64, name: &[u8], older: &[u8], block: &[u8], n: usize)
    ensures { Puts out.old (plain_dial y name.now (byte_at older.now n) (byte_at block.now n)) out.new }
{
    let _ = start_line(out, y, name, older, block, n);
    end(out);
}

fn put_curve_note(out: &mut Writer, was: u8, curve: u8)
    ensures { Puts out.old (curve_note was curve) out.new }
{
    put(out, b"curve <tspan class='b'>");
    put_decimal(out, curve as u64);
    put(out, b"</tspan>");
    put_was(out, was, curve);
}

// The note of a time or level has the byte of its curve, number k.
pub fn put_curved(
    out: &mut Writer,
    y: u64,
    name: &[u8],
    older: &[u8],
    block: &[u8],
    n: usize,
    k: usize,
)
    ensures { Puts out.old (curved_dial y name.now (byte_at older.now n) (byte_at block.now n) (byte_at older.now k) (byte_at block.now k)) out.new }
{
    start_line(out, y, name, older, block, n);
    put_curve_note(out, byte_at(older, k), byte_at(block, k));
    end(out);
}

// A generator's only dial.
pub fn put_dial(out: &mut Writer, name: &[u8], older: &[u8], block: &[u8], n: usize)
    ensures { Puts out.old (only_dial name.now (byte_at older.now n) (byte_at block.now n)) out.new }
{
    put_plain(out, 1300, name, older, block, n);
}
