// 2 to the power of an f32: a NaN gives a NaN, and every other x is clamped first.
#![tactic(auto)]

ghost use Rattle.std.specs.Prelude.{◌≡◌};
ghost use Rattle.series.specs.Horner.{horner};
ghost use Rattle.exp2.specs.Formula.{exp2_coefficients, exp2_of};

use floor::floor;
use math::clamp;

// What one step of the exponent's field weighs in a bit pattern.
const FIELD: u32 = 0x80_0000;

// 2 to the power part, for a part of 0 to 1.
fn polynomial(part: f32) -> f32
    ensures { result ≡ horner exp2_coefficients part }
{
    1.0 + part
        * (0.693_147_2
            + part
                * (0.240_226_5
                    + part
                        * (0.055_504_1
                            + part
                                * (0.009_618_1
                                    + part
                                        * (0.001_333_36
                                            + part
                                                * (0.000_154_03
                                                    + part
                                                        * (0.000_015_25 + part * 0.000_001_32)))))))
}

// 2 to the power x, x clamped to what an exponent's field holds.
pub fn exp2(x: f32) -> f32
    ensures { result ≡ exp2_of x }
{
    let c = clamp(x, -126.0, 127.0);
    if c != c {
        return c;
    }
    let whole = floor(c);
    // the field of 2 to the power whole
    let field = (whole as i32 + 127) as u32;
    polynomial(c - whole) * f32::from_bits(field * FIELD)
}
