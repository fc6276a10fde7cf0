// Whole numbers about the floor of a bit pattern, as text: the exponent, and the floor itself below exponent 23.
#![tactic(auto)]

ghost use Rattle.std.specs.Prelude.{◌≡◌, ◌++◌, ◌+◌, ◌/◌, ◌%◌, ◌^◌, ◌<◌, ◌≤◌};
ghost use Rattle.exact.specs.Fraction.{floorℚ};
ghost use Rattle.exact.specs.Value.{value};
ghost use Rattle.exact.specs.Binary32.{bits};
ghost use Rattle.floor.specs.Exponent.{exponent};
ghost use Rattle.text.specs.Text.{Puts, ascii};
ghost use Rattle.numerals.specs.Spelled.{decimal_of};
ghost use Rattle.floor_number.specs.Number.{whole_text, number_text};

use float_bits::float_of;
use floor::{FIELD, ONE, SIGN, WHOLE};
use numerals::put_decimal;
use text::{Writer, put};

fn put_minus(out: &mut Writer, size: u64)
    ensures { Puts out.old (ascii "-" ++ decimal_of size) out.new }
{
    put(out, b"-");
    put_decimal(out, size);
}

// The exponent of a pattern.
pub fn put_exponent(out: &mut Writer, b: u32)
    ensures { Puts out.old (whole_text (exponent b)) out.new }
{
    let field = b % SIGN / FIELD;
    if field < ONE {
        return put_minus(out, (ONE - field) as u64);
    }
    put_decimal(out, (field - ONE) as u64);
}

// The floor at an exponent below 0.
fn put_small(out: &mut Writer, b: u32)
    requires { b % 2 ^ 31 / 2 ^ 23 < 127 }
    ensures { Puts out.old (whole_text (floorℚ (value (bits b)))) out.new }
{
    if float_of(b) < 0.0 {
        return put(out, b"-1");
    }
    put(out, b"0");
}

// The floor where k bits of the fraction stand below the point: the size that the others make,
// and of a number below 0 one more where one of the k is set.
fn put_cut(out: &mut Writer, b: u32, k: u32)
    requires { (0 < k) × (k ≤ 23) × (b % 2 ^ 31 / 2 ^ 23 + k ≡ 150) }
    ensures { Puts out.old (whole_text (floorℚ (value (bits b)))) out.new }
{
    let one = 1 << k;
    let size = (FIELD + b % FIELD) / one;
    if b < SIGN {
        return put_decimal(out, size as u64);
    }
    if b % one == 0 {
        return put_minus(out, size as u64);
    }
    put_minus(out, size as u64 + 1);
}

// The floor at an exponent below 23; otherwise nothing.
pub fn put_floor_number(out: &mut Writer, b: u32)
    ensures { Puts out.old (number_text b) out.new }
{
    let field = b % SIGN / FIELD;
    if field < ONE {
        return put_small(out, b);
    }
    if field < WHOLE {
        return put_cut(out, b, WHOLE - field);
    }
}
