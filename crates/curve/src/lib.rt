// What every curve shares: where along it a position lies, and what its height comes to.
#![tactic(auto)]

ghost use Rattle.std.specs.Prelude.{◌≡◌, cond};
ghost use Rattle.std.specs.Float.Ieee.{lt};
ghost use Rattle.exact.specs.Binary32.{zero₃₂, one₃₂};
ghost use Rattle.curve.specs.Curve.{position_of, clamp_unit_of, drawn_of};

// A height, and how many steps its walk took: none but for a slewed LFO.
#[derive(Clone, Copy)]
pub struct Height {
    pub height: f32,
    pub steps: u32,
}

// The left edge of a curve.
const LEFT: f32 = 0.0;

// What lies below 0 is 0.
fn raised(x: f32) -> f32
    ensures { result ≡ cond (lt x zero₃₂) zero₃₂ x }
{
    if x < 0.0 {
        return 0.0;
    }
    x
}

// What lies above 1 is 1.
pub fn lowered(x: f32) -> f32
    ensures { result ≡ cond (lt one₃₂ x) one₃₂ x }
{
    if 1.0 < x {
        return 1.0;
    }
    x
}

// A clamp to 0..1: raised first and then lowered, which is an instruction each.
pub fn clamp_unit(x: f32) -> f32
    ensures { result ≡ clamp_unit_of x }
{
    lowered(raised(x))
}

// A NaN is position 0; all else is clamped to 0..1.
pub fn position(t: f32) -> f32
    ensures { result ≡ position_of t }
{
    if t != t {
        return LEFT;
    }
    clamp_unit(t)
}

// The level clamped to 0..1, as a height that took no steps.
pub fn drawn(level: f32) -> Height
    ensures { result ≡ drawn_of level }
{
    Height {
        height: clamp_unit(level),
        steps: 0,
    }
}
