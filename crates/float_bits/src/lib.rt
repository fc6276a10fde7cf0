// An answer as one word of 32 bits: an f32's bits, or a number.
#![tactic(auto)]

ghost use Rattle.std.specs.Prelude.{◌≡◌, cond, ◌%◌, ◌^◌};
ghost use Rattle.std.specs.Float.{binary32};
ghost use Rattle.std.specs.Float.Ieee.{to_bits};
ghost use Rattle.exact.specs.Binary32.{bits};
ghost use Rattle.float_bits.specs.Agreement.{agree};

// The bits of a NaN.
const NAN: u32 = 0x7fc0_0000;

// The bits of +infinity: a NaN's are above, but for the sign.
const INFINITY: u32 = 0x7f80_0000;

pub fn word_of(x: f32) -> u32
    ensures { result ≡ to_bits binary32 x }
{
    if x != x {
        return NAN;
    }
    f32::to_bits(x)
}

pub fn float_of(word: u32) -> f32
    ensures { result ≡ bits word }
{
    if word % 0x8000_0000 > INFINITY {
        return 0.0 / 0.0;
    }
    f32::from_bits(word)
}

pub fn flag(b: bool) -> u32
    ensures { result ≡ cond b 1 0 }
{
    if b {
        return 1;
    }
    0
}

// Equal numbers agree, two zeros among them, and so do two NaNs.
pub fn agrees(x: f32, y: f32) -> bool
    ensures { result ≡ agree x y }
{
    if x != x {
        return y != y;
    }
    x == y
}

// Whether the words are the bits of two answers that agree. A number that is no f32's bits is small, and agrees with itself alone.
pub fn agreeing(a: u32, b: u32) -> bool
    ensures { result ≡ agree (bits a) (bits b) }
{
    agrees(float_of(a), float_of(b))
}

pub fn low_word(n: u64) -> u32
    ensures { result ≡ n % 2 ^ 32 }
{
    (n % 0x1_0000_0000) as u32
}

pub fn low_byte(n: u64) -> u8
    ensures { result ≡ n % 2 ^ 8 }
{
    (n % 256) as u8
}
