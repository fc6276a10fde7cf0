// The largest whole number not above an f32, and what is left above it. Each takes every f32, a NaN, an infinity and a zero of either sign among them.
#![tactic(auto)]

ghost use Rattle.std.specs.Prelude.{◌≡◌};
ghost use Rattle.floor.specs.Formula.{floor_of, fract_of};

// What the sign weighs in a bit pattern, and one step of the exponent's field.
pub const SIGN: u32 = 0x8000_0000;

pub const FIELD: u32 = 0x80_0000;

// The fields of exponent 0 and of exponent 23.
pub const ONE: u32 = 127;

pub const WHOLE: u32 = 127 + 23;

// The largest whole number not above x, by the exponent of x: below 0 its size is less than 1, from 0 to 22 the lowest bits stand below the point, and from 23 on none does.
pub fn floor(x: f32) -> f32
    ensures { result ≡ floor_of x }
{
    if x != x {
        return x;
    }
    let bits: u32 = f32::to_bits(x);
    let field = bits % SIGN / FIELD;
    if field < ONE {
        if x < 0.0 {
            return -1.0;
        }
        return 0.0;
    }
    if field >= WHOLE {
        return x;
    }
    let low = bits % (FIELD >> (field - ONE));
    let cleared = f32::from_bits(bits - low);
    if x < 0.0 {
        if low != 0 {
            return cleared - 1.0;
        }
    }
    cleared
}

// What is left of x above its floor.
pub fn fract(x: f32) -> f32
    ensures { result ≡ fract_of x }
{
    x - floor(x)
}
