// Whether an f32 is a level: a number from 0 to 1.
#![tactic(auto)]

ghost use Rattle.std.specs.Prelude.{◌≡◌};
ghost use Rattle.level.specs.Level.{is_level};

// No comparison with a NaN holds, and -0 is 0.
pub fn is_level(x: f32) -> bool
    ensures { result ≡ is_level x }
{
    if 0.0 <= x {
        return x <= 1.0;
    }
    false
}
