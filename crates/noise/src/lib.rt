// The noise: a fixed scatter about the middle.
#![tactic(auto)]

ghost use Rattle.std.specs.Prelude.{◌≡◌};
ghost use Rattle.noise.specs.Formula.{noise_at_of, noise_level_of, noise_height_of};

use curve::{Height, clamp_unit, position};
use rounded_floor::fract;
use settings::Noise;
use sine::sin_turns;

// A scatter value for a position, the same on every call.
pub fn noise_at(t: f32) -> f32
    ensures { result ≡ noise_at_of t }
{
    fract((sin_turns(t * 89.0) + 1.5) * 1013.0)
}

// The scatter about the middle, at the level.
fn noise_level(noise: Noise, t: f32) -> f32
    ensures { result ≡ noise_level_of noise t }
{
    0.5 + (noise_at(t) - 0.5) * noise.level
}

// A sample's height: what a strip's loop calls, and without the steps, which are none.
pub fn noise_sample(noise: Noise, t: f32) -> f32
    ensures { result ≡ (noise_height_of noise t).height }
{
    clamp_unit(noise_level(noise, position(t)))
}

// The height of the noise.
pub fn noise_height(noise: Noise, t: f32) -> Height
    ensures { result ≡ noise_height_of noise t }
{
    Height {
        height: noise_sample(noise, t),
        steps: 0,
    }
}
