// The bytes of two blocks held against each other: which of those that a generator reads are the same, and a line for each that is not.
#![tactic(auto)]

ghost use Rattle.std.specs.Prelude.{◌≡◌};
ghost use Rattle.text.specs.Text.{Puts};
ghost use Rattle.code_bytes.specs.Bytes.{bytes_of, byte_at};
ghost use Rattle.comparison_bytes.specs.Changes.{same_bytes, change_text, changes_text};

use byte_names::put_byte_name;
use code_bytes::{byte_at, bytes_of};
use codes::Code;
use numerals::put_decimal;
use text::{Writer, put};

// ---- bytes
// Two slices, and not crate compared_blocks' `Blocks`: what is promised here holds of blocks of any length.

// Whether two blocks have the same bytes of those numbers.
pub fn same_bytes(old: &[u8], new: &[u8], bytes: &[u8]) -> bool
    ensures { result ≡ same_bytes bytes.now (byte_at old.now) (byte_at new.now) }
{
    bytes
        .iter()
        .all(|n| byte_at(old, *n as usize) == byte_at(new, *n as usize))
}

// A line for a byte that differs, and none for one that does not.
fn put_change(out: &mut Writer, n: u8, a: u8, b: u8)
    ensures { Puts out.old (change_text n a b) out.new }
{
    if a == b {
        return;
    }
    put(out, b"                            ");
    put_byte_name(out, n);
    put(out, b" ");
    put_decimal(out, a as u64);
    put(out, b" -> ");
    put_decimal(out, b as u64);
    put(out, b"\n");
}

// The lines of the bytes of those numbers.
pub fn put_changes(out: &mut Writer, old: &[u8], new: &[u8], bytes: &[u8])
    ensures { Puts out.old (changes_text bytes.now (byte_at old.now) (byte_at new.now)) out.new }
{
    for n in bytes {
        put_change(
            out,
            *n,
            byte_at(old, *n as usize),
            byte_at(new, *n as usize),
        );
    }
}

// ---- the bytes that a generator reads
// Whether they are the same.
pub fn same(old: &[u8], new: &[u8], code: Code) -> bool
    ensures { result ≡ same_bytes (bytes_of code) (byte_at old.now) (byte_at new.now) }
{
    let read = bytes_of(code);
    let numbers = read.at;
    same_bytes(old, new, &numbers[..read.count])
}

// The lines of those that differ.
pub fn put_code_changes(out: &mut Writer, old: &[u8], new: &[u8], code: Code)
    ensures { Puts out.old (changes_text (bytes_of code) (byte_at old.now) (byte_at new.now)) out.new }
{
    let read = bytes_of(code);
    let numbers = read.at;
    put_changes(out, old, new, &numbers[..read.count]);
}
