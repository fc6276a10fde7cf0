// The logarithm to base 2 of an f32, which may be a NaN, an infinity, a zero or a negative number.
#![tactic(auto)]

ghost use Rattle.std.specs.Prelude.{◌≡◌};
ghost use Rattle.log2.specs.Formula.{log2_mantissa, log2_of};

// What one step of the exponent's field weighs in a bit pattern.
const FIELD: u32 = 0x80_0000;

// 1 / n, for the odd n of the series of log2
const THIRD: f32 = 1.0 / 3.0;

const FIFTH: f32 = 1.0 / 5.0;

const SEVENTH: f32 = 1.0 / 7.0;

const NINTH: f32 = 1.0 / 9.0;

// The logarithm to base 2 of a mantissa from 1 to below 2.
fn log2_mantissa(mantissa: f32) -> f32
    ensures { result ≡ log2_mantissa mantissa }
{
    let u = (mantissa - 1.0) / (mantissa + 1.0);
    let square = u * u;
    let series = u
        * (1.0 + square * (THIRD + square * (FIFTH + square * (SEVENTH + square * NINTH))));
    series * 2.885_39
}

// The logarithm to base 2.
pub fn log2(x: f32) -> f32
    ensures { result ≡ log2_of x }
{
    if !(x > 0.0) {
        return -126.0;
    }
    let bits: u32 = f32::to_bits(x);
    let exponent = (bits / FIELD) as i32 - 127;
    let mantissa = f32::from_bits(0x3f80_0000 + bits % FIELD);
    exponent as f32 + log2_mantissa(mantissa)
}
