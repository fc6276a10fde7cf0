// The bit pattern of an f32 as text: hexadecimal digits, then sign, field of the exponent and fraction, bit by bit.
#![tactic(auto)]

ghost use Rattle.std.specs.Prelude.{[], ◌∷◌, ◌/◌, ◌%◌, ◌^◌, ◌<◌, ◌≤◌};
ghost use Rattle.text.specs.Text.{Puts};
ghost use Rattle.numerals.specs.Spelled.{glyph_of, digits_of};
ghost use Rattle.bit_fields.specs.Pattern.{fields_text, pattern_text};

use floor::{FIELD, SIGN};
use numerals::put_hex;
use text::{Writer, put, put_byte};

// Bit k of a number.
fn put_bit(out: &mut Writer, n: u32, k: u32)
    requires { k < 32 }
    ensures { Puts out.old (glyph_of (n / 2 ^ k % 2) ∷ []) out.new }
{
    let bit = (n >> k) % 2;
    put_byte(out, 48 + bit as u8);
}

// The last bits of a number, the most significant first.
fn put_bits(out: &mut Writer, n: u32, count: u32)
    requires { count ≤ 32 }
    ensures { Puts out.old (digits_of 2 count n) out.new }
{
    for k in (0..count).rev() {
        put_bit(out, n, k);
    }
}

// The sign, the field of the exponent and the fraction, a space between two.
fn put_fields(out: &mut Writer, b: u32)
    ensures { Puts out.old (fields_text b) out.new }
{
    put_bits(out, b / SIGN, 1);
    put(out, b" ");
    put_bits(out, b / FIELD, 8);
    put(out, b" ");
    put_bits(out, b, 23);
}

// The pattern in hexadecimal, then bit by bit.
pub fn put_pattern(out: &mut Writer, b: u32)
    ensures { Puts out.old (pattern_text b) out.new }
{
    put(out, b"0x");
    put_hex(out, b);
    put(out, b"  ");
    put_fields(out, b);
}
