// A line for each byte that no curve draws and that differs between two blocks.
#![tactic(auto)]

ghost use Rattle.text.specs.Text.{Puts};
ghost use Rattle.code_bytes.specs.Bytes.{byte_at, block_length};
ghost use Rattle.undrawn_lines.specs.Lines.{named_text, line_text, change_text, undrawn_text};

use compared_blocks::Blocks;
use drawn_bytes::BYTES;
use numerals::put_decimal;
use parameter_names::put_parameter_name;
use text::{Writer, put};
use undrawn_count::differs_undrawn;

// The name of byte n and its number.
fn put_named(out: &mut Writer, n: u8)
    ensures { Puts out.old (named_text n) out.new }
{
    put(out, b"                            ");
    put_parameter_name(out, n);
    put(out, b" (byte ");
    put_decimal(out, n as u64);
    put(out, b") ");
}

fn put_line(out: &mut Writer, n: u8, a: u8, b: u8)
    ensures { Puts out.old (line_text n a b) out.new }
{
    put_named(out, n);
    put_decimal(out, a as u64);
    put(out, b" -> ");
    put_decimal(out, b as u64);
    put(out, b"\n");
}

// The line of a byte that differs and is not drawn; of another, none.
#[tactic(auto, using(text::proofs::Writing::puts_none), unfolding(crate::specs::Lines::change_text))]
fn put_change(out: &mut Writer, n: u8, a: u8, b: u8)
    ensures { Puts out.old (change_text n a b) out.new }
{
    if differs_undrawn(n, a, b) {
        put_line(out, n, a, b);
    }
}

// The lines of the bytes that differ and are not drawn.
pub fn put_undrawn(out: &mut Writer, blocks: Blocks)
    ensures { Puts out.old (undrawn_text block_length (byte_at blocks.entry.old.now) (byte_at blocks.entry.new.now)) out.new }
{
    for n in 0..BYTES {
        put_change(out, n, blocks.old[n as usize], blocks.new[n as usize]);
    }
}
