// The two floors, and `fract` by each, as C functions, for reference/floor, which tries them at every bit pattern. They are no part of libjuvrada.
ghost use Rattle.std.specs.Prelude.{◌≡◌};
ghost use Rattle.floor.specs.Formula.{floor_of, fract_of};

#[unsafe(no_mangle)]
pub extern "C" fn floor_by_exponent(x: f32) -> f32
    ensures { result ≡ floor_of x }
{
    floor::floor(x)
}

#[unsafe(no_mangle)]
pub extern "C" fn floor_by_rounding(x: f32) -> f32
    ensures { result ≡ floor_of x }
{
    rounded_floor::floor(x)
}

#[unsafe(no_mangle)]
pub extern "C" fn fract_by_exponent(x: f32) -> f32
    ensures { result ≡ fract_of x }
{
    floor::fract(x)
}

#[unsafe(no_mangle)]
pub extern "C" fn fract_by_rounding(x: f32) -> f32
    ensures { result ≡ fract_of x }
{
    rounded_floor::fract(x)
}
