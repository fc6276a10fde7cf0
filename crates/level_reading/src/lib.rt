// A level read from its decimals: the number that is written is taken exactly, and rounded once to an f32. Its places are doubled again and again, as digits;
// what is carried out in front of them is the number's binary places.
#![tactic(auto)]

ghost use Rattle.std.specs.Prelude.{◌≡◌, false, ◌∷◌, eqb, length};
ghost use Prim.Native.Nat.{◌*◌, ◌^◌, ◌≤◌, ◌<◌, compare};
ghost use Rattle.std.specs.Float.{binary32};
ghost use Rattle.std.specs.Float.Ieee.{round, nearest};
ghost use Rattle.numerals.specs.Spelled.{number_of};
ghost use Rattle.decimal_reading.specs.Reading.{read_after};
ghost use Rattle.level_reading.specs.Digits.{AreDigits, Doubled, all_digits};
ghost use Rattle.level_reading.specs.Reading.{level_over, level_of};

use float_bits::float_of;

// The most places that are read. An f32 from 0 to 1 has 149 at most, and what lies midway between two has 150.
const MAX_PLACES: usize = 160;

// The weight of the exponent's field, and of a significand's leading digit.
const FIELD: u32 = 0x80_0000;

// How many binary places the smallest f32 has.
const BINARY_PLACES: u32 = 149;

// ---- digits
fn all_digits(text: &[u8]) -> bool
    ensures { result ≡ all_digits text.now }
{
    for &c in text {
        if c < b'0' {
            return false;
        }
        if b'9' < c {
            return false;
        }
    }
    true
}

fn all_zeros(digits: &[u8]) -> bool
    requires { AreDigits digits.now }
    ensures { result ≡ eqb (number_of digits.now) 0 }
{
    for &c in digits {
        if c != b'0' {
            return false;
        }
    }
    true
}

// Twice the number, in the place of its digits. Answers what is carried out in front of them.
fn double(digits: &mut [u8]) -> u32
    requires { AreDigits digits.old }
    ensures { Doubled digits.old digits.new result }
{
    let mut carry: u8 = 0;
    for i in (0..digits.len()).rev() {
        let twice = (digits[i] - b'0') * 2 + carry;
        digits[i] = b'0' + twice % 10;
        carry = twice / 10;
    }
    carry as u32
}

// ---- rounding
// `kept`, or the next number up, by what is left over: the digits, as places behind the point. At a half it is the even one.
fn to_nearest(kept: u32, digits: &mut [u8]) -> u32
    requires { (kept < 2 ^ 24) × AreDigits digits.old }
    ensures { result ≡ nearest kept (compare (number_of digits.old * 2) (10 ^ length digits.old)) }
{
    if double(digits) == 0 {
        return kept;
    }
    if all_zeros(digits) {
        return kept + kept % 2;
    }
    kept + 1
}

// The digits as places behind the point, rounded once. The bits are those of a significand with as many places as an f32 of its size has.
fn rounded(digits: &mut [u8]) -> f32
    requires { AreDigits digits.old }
    ensures { result ≡ round binary32 false (number_of digits.old) (10 ^ length digits.old) }
{
    let mut kept: u32 = 0;
    // Counted by hand, which is no less plain than a for: how many places are left is wanted after the loop.
    let mut left: u32 = BINARY_PLACES;
    while 0 < left && kept < FIELD {
        kept = kept * 2 + double(digits);
        left -= 1;
    }
    float_of(left * FIELD + to_nearest(kept, digits))
}

// The places themselves stay as they are: it is a copy of them that is doubled.
fn rounded_copy(places: &[u8]) -> f32
    requires { (length places.now ≤ 160) × AreDigits places.now }
    ensures { result ≡ round binary32 false (number_of places.now) (10 ^ length places.now) }
{
    let mut digits = [0u8; MAX_PLACES];
    let n = places.len();
    digits[..n].copy_from_slice(places);
    rounded(&mut digits[..n])
}

// ---- reading
// The level of a whole digit and of places.
fn read_digits(whole: u8, places: &[u8]) -> Option<f32>
    requires { length places.now ≤ 160 }
    ensures { result ≡ level_over (length places.now) (read_after 0 (whole ∷ places.now)) }
{
    if !all_digits(places) {
        return None;
    }
    if whole == b'0' {
        return Some(rounded_copy(places));
    }
    if whole != b'1' {
        return None;
    }
    if !all_zeros(places) {
        return None;
    }
    Some(1.0)
}

// The level of one digit; or of one digit, a point and places.
pub fn read_level(text: &[u8]) -> Option<f32>
    ensures { result ≡ level_of text.now }
{
    if text.len() == 0 {
        return None;
    }
    if text.len() == 1 {
        return read_digits(text[0], &text[1..]);
    }
    if text[1] != b'.' {
        return None;
    }
    if MAX_PLACES + 2 < text.len() {
        return None;
    }
    read_digits(text[0], &text[2..])
}
