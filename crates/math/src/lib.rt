// The small functions of floats: min, clamp, abs, and a number of 16 bits as a float. Each takes every f32, a NaN, an infinity and a zero of either sign among them.
#![tactic(auto)]

ghost use Rattle.std.specs.Prelude.{◌≡◌, pos};
ghost use Rattle.std.specs.Float.{binary32};
ghost use Rattle.std.specs.Float.Ieee.{of_int};
ghost use Rattle.math.specs.Formulas.{unsigned_zero, min_of, clamp_of, abs_of};

// From here on an f32 has no fraction: 2 to the power 23.
const WHOLE: f32 = 8388608.0;

// The bit of the sign.
const SIGN_BIT: u32 = 0x8000_0000;

// A number of 16 bits, exactly: beside 2 to the power 23 it is the last digits of the bits. `n as f32` is an instruction that waits for what its register held before.
pub fn from_u16(n: u16) -> f32
    ensures { result ≡ of_int binary32 (pos n) }
{
    f32::from_bits(0x4b00_0000 + n as u32) - WHOLE
}

// x, and +0 for a zero of either sign.
fn unsigned_zero(x: f32) -> f32
    ensures { result ≡ unsigned_zero x }
{
    if x == 0.0 {
        return 0.0;
    }
    x
}

// The smaller of two numbers, and of a number and a NaN the number. Of two zeros it is +0.
pub fn min(x: f32, y: f32) -> f32
    ensures { result ≡ min_of x y }
{
    if x != x {
        return y;
    }
    if y != y {
        return x;
    }
    if x < y {
        return x;
    }
    if y < x {
        return y;
    }
    unsigned_zero(x)
}

// x, or the end that it lies beyond.
pub fn clamp(x: f32, low: f32, high: f32) -> f32
    ensures { result ≡ clamp_of low high x }
{
    if x < low {
        return low;
    }
    if high < x {
        return high;
    }
    x
}

// The size of x: its bits without the sign, which is one instruction. A NaN stays one.
pub fn abs(x: f32) -> f32
    ensures { result ≡ abs_of x }
{
    if x != x {
        return x;
    }
    f32::from_bits(f32::to_bits(x) % SIGN_BIT)
}
