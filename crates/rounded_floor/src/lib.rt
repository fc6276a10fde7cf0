// The same floor by rounding, and what is left above it, for where that is quicker. Each takes every f32, a NaN, an infinity and a zero of either sign among them.
#![tactic(auto)]

ghost use Rattle.std.specs.Prelude.{◌≡◌};
ghost use Rattle.floor.specs.Formula.{floor_of, fract_of};
ghost use Rattle.rounded_floor.specs.Rounding.{nearby_of, step_down_of};

// From here on an f32 has no fraction: 2 to the power 23.
const WHOLE: f32 = 8388608.0;

// Half of that, and the number in the middle between WHOLE and its double.
const NEAR: f32 = 4194304.0;

const CENTRE: f32 = 12582912.0;

// A whole number less than 1 away from an x between -WHOLE and WHOLE: beyond WHOLE a sum is rounded
// to a whole number.
fn nearby(x: f32) -> f32
    ensures { result ≡ nearby_of x }
{
    if x < 0.0 {
        return x - WHOLE + WHOLE;
    }
    x + WHOLE - WHOLE
}

// What leads from a whole number less than 1 away from x to the largest not above x. It is added and not tested for: a branch here would go either way.
fn step_down(x: f32, whole: f32) -> f32
    ensures { result ≡ step_down_of x whole }
{
    if x < whole {
        return -1.0;
    }
    0.0
}

// The floor of any x.
fn far_floor(x: f32) -> f32
    ensures { result ≡ floor_of x }
{
    if !(x < WHOLE) {
        return x;
    }
    if !(-WHOLE < x) {
        return x;
    }
    let whole = nearby(x);
    whole + step_down(x, whole)
}

// The largest whole number not above x. Near 0, where every caller's x lies, the sum with the centre is rounded to a whole number for either sign of x.
pub fn floor(x: f32) -> f32
    ensures { result ≡ floor_of x }
{
    if x < NEAR {
        if -NEAR < x {
            let whole = x + CENTRE - CENTRE;
            return whole + step_down(x, whole);
        }
    }
    far_floor(x)
}

// What is left of x above its floor.
pub fn fract(x: f32) -> f32
    ensures { result ≡ fract_of x }
{
    x - floor(x)
}
