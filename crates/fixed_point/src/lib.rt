// A height as a whole number: scaled exactly and rounded once, or compared exactly with whole numbers of 2^-32.
#![tactic(auto)]

ghost use Rattle.std.specs.Prelude.{◌≡◌, true, not, ◌&&◌, ◌+◌, ◌*◌, ◌/◌, ◌^◌, ◌<◌, ◌≤◌, ltb};
ghost use Rattle.std.specs.Float.Ieee.{lt, le};
ghost use Rattle.exact.specs.Binary32.{bits, zero₃₂, one₃₂};
ghost use Rattle.fixed_point.specs.Nearest.{nearest_of};
ghost use Rattle.fixed_point.specs.Between.{between_of, within_of};

use curve::position;

// 2 to the power -33: below it, no product with a number of 32 bits reaches 1/2.
const LEAST: f32 = 1.0 / 8_589_934_592.0;

// The weight of the exponent's field, and of a significand's leading digit.
const FIELD: u32 = 0x80_0000;

// How many units of 2^-32 are 1.
const UNITS: u64 = 0x1_0000_0000;

// ---- rounded
// The whole number nearest to digits times n over a power of two, at a tie the larger.
fn rounded(digits: u64, n: u64, shift: u32) -> u64
    requires { (digits < 2 ^ 24) × (n < 2 ^ 32) × (shift ≤ 56) }
    ensures { result ≡ (digits * n * 2 + 2 ^ shift) / (2 ^ shift * 2) }
{
    let half = 1u64 << shift;
    (digits * n * 2 + half) / (half * 2)
}

// The whole number nearest to x times n, for an x from 0 to 1; it is n at most.
pub fn nearest(x: f32, n: u32) -> u64
    ensures { (result ≡ nearest_of x n) × (result ≤ n) }
{
    let p = position(x);
    if p < LEAST {
        return 0;
    }
    let bits: u32 = f32::to_bits(p);
    let digits = (FIELD + bits % FIELD) as u64;
    rounded(digits, n as u64, 150 - bits / FIELD)
}

// ---- compared
// For digits over a power of two: the quotient rounded down is tested against low, and rounded up against high.
fn digits_between(digits: u64, shift: u32, low: u64, high: u64) -> bool
    requires { (digits < 2 ^ 24) × (shift ≤ 56) }
    ensures { result ≡ not (ltb (digits * 2 ^ 32) (low * 2 ^ shift)) && not (ltb (high * 2 ^ shift) (digits * 2 ^ 32)) }
{
    let one = 1u64 << shift;
    let units = digits * UNITS;
    if units / one < low {
        return false;
    }
    if high < (units + (one - 1)) / one {
        return false;
    }
    true
}

// For a number that is less than a unit.
fn small_between(x: f32, low: u64, high: u64) -> bool
    requires { (le zero₃₂ x ≡ true) × (le x one₃₂ ≡ true) × (lt x (bits 0x2f00_0000) ≡ true) }
    ensures { result ≡ between_of x low high }
{
    if 0 < low {
        return false;
    }
    if 0 < high {
        return true;
    }
    if 0.0 < x {
        return false;
    }
    true
}

fn between(x: f32, low: u64, high: u64) -> bool
    requires { (le zero₃₂ x ≡ true) × (le x one₃₂ ≡ true) }
    ensures { result ≡ between_of x low high }
{
    if x < LEAST {
        return small_between(x, low, high);
    }
    let bits: u32 = f32::to_bits(x);
    let digits = (FIELD + bits % FIELD) as u64;
    digits_between(digits, 150 - bits / FIELD, low, high)
}

pub fn within(x: f32, low: u64, high: u64) -> bool
    ensures { result ≡ within_of x low high }
{
    if 0.0 <= x {
        if x <= 1.0 {
            return between(x, low, high);
        }
    }
    false
}
