// Numbers as text, put into a lent buffer: in decimal, as hexadecimal digits, and with a point.
#![tactic(auto)]

ghost use Rattle.std.specs.Prelude.{◌≡◌, ◌-◌, ◌^◌, ◌<◌, ◌≤◌};
ghost use Rattle.text.specs.Text.{Puts};
ghost use Rattle.numerals.specs.Spelled.{glyph_of, digits_of, digit_count, decimal_of, hex_of, fixed_of};

use text::{Writer, put, put_byte};

// The character of a digit.
fn glyph(d: u64) -> u8
    requires { d < 16 }
    ensures { result ≡ glyph_of d }
{
    if d < 10 {
        return 48 + d as u8;
    }
    87 + d as u8
}

// The last digits of a number, the most significant first.
fn put_digits(out: &mut Writer, n: u64, base: u64, count: u32)
    requires { (1 < base) × (base ≤ 16) × (base ^ (count - 1) < 2 ^ 64) }
    ensures { Puts out.old (digits_of base count n) out.new }
{
    for k in (0..count).rev() {
        let digit = n / base.pow(k) % base;
        put_byte(out, glyph(digit));
    }
}

// How many digits a number has.
fn places(n: u64) -> u32
    ensures { (result ≡ digit_count n) × (1 ≤ result) × (result ≤ 20) }
{
    for k in 1..20 {
        if n < 10u64.pow(k) {
            return k;
        }
    }
    20
}

// A number in decimal.
pub fn put_decimal(out: &mut Writer, n: u64)
    ensures { Puts out.old (decimal_of n) out.new }
{
    put_digits(out, n, 10, places(n));
}

// Eight hexadecimal digits.
pub fn put_hex(out: &mut Writer, n: u32)
    ensures { Puts out.old (hex_of n) out.new }
{
    put_digits(out, n as u64, 16, 8);
}

// A number with a point before its last digits.
pub fn put_fixed(out: &mut Writer, n: u64, places: usize)
    ensures { Puts out.old (fixed_of n places) out.new }
{
    let k = places.min(19) as u32;
    let whole = n / 10u64.pow(k);
    put_decimal(out, whole);
    put(out, b".");
    put_digits(out, n, 10, k);
}
