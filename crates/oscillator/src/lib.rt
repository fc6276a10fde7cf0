// One cycle of an oscillator: the mean of its saw and its pulse.
#![tactic(auto)]

ghost use Rattle.std.specs.Prelude.{◌≡◌};
ghost use Rattle.oscillator.specs.Formula.{saw_of, pulse_of, added_of, sum_of, waves_of, oscillator_level_of, oscillator_height_of};

use curve::{Height, drawn, position};
use settings::Oscillator;

// From -1 to 1 over the cycle; at its right edge it is 1.
fn saw(t: f32) -> f32
    ensures { result ≡ saw_of t }
{
    t * 2.0 - 1.0
}

// 1 below the width, -1 from there on.
fn pulse(width: f32, t: f32) -> f32
    ensures { result ≡ pulse_of width t }
{
    if t < width {
        return 1.0;
    }
    -1.0
}

// The sum, with the wave if it is on.
fn added(on: bool, sum: f32, wave: f32) -> f32
    ensures { result ≡ added_of on sum wave }
{
    if on {
        return sum + wave;
    }
    sum
}

// The sum of the waves that are on.
fn sum(oscillator: Oscillator, t: f32) -> f32
    ensures { result ≡ sum_of oscillator t }
{
    let saws = added(oscillator.saw, 0.0, saw(t));
    added(oscillator.pulse, saws, pulse(oscillator.width, t))
}

// How many waves are on.
fn waves(oscillator: Oscillator) -> u8
    ensures { result ≡ waves_of oscillator }
{
    if oscillator.saw {
        if oscillator.pulse {
            return 2;
        }
        return 1;
    }
    if oscillator.pulse {
        return 1;
    }
    0
}

// The mean of the waves that are on, at the level; with none on, the middle.
fn oscillator_level(oscillator: Oscillator, t: f32) -> f32
    ensures { result ≡ oscillator_level_of oscillator t }
{
    let count = waves(oscillator);
    if count == 0 {
        return 0.5;
    }
    0.5 + 0.5 * oscillator.level * sum(oscillator, t) / count as f32
}

// The height of an oscillator.
pub fn oscillator_height(oscillator: Oscillator, t: f32) -> Height
    ensures { result ≡ oscillator_height_of oscillator t }
{
    drawn(oscillator_level(oscillator, position(t)))
}
