// The sine of a number of turns, which may be any f32: the turn's part is folded to a quarter, and a polynomial gives the sine there.
#![tactic(auto)]

ghost use Rattle.std.specs.Prelude.{◌≡◌};
ghost use Rattle.sine.specs.Formula.{half_of, quarter_of, sign_of, sine_of_quarter, sin_turns_of};

use floor::fract;

// 1 / n!, with the sign that the series of the sine has
const SINE_3: f32 = -1.0 / 6.0;

const SINE_5: f32 = 1.0 / 120.0;

const SINE_7: f32 = -1.0 / 5040.0;

const SINE_9: f32 = 1.0 / 362880.0;

// From a turn to half a turn.
fn half(cycle: f32) -> f32
    ensures { result ≡ half_of cycle }
{
    if cycle < 0.5 {
        return cycle;
    }
    cycle - 0.5
}

// From half a turn to a quarter.
fn quarter(half: f32) -> f32
    ensures { result ≡ quarter_of half }
{
    if half > 0.25 {
        return 0.5 - half;
    }
    half
}

// The sign that the sine has in a turn's half.
fn sign(cycle: f32) -> f32
    ensures { result ≡ sign_of cycle }
{
    if cycle < 0.5 {
        return 1.0;
    }
    -1.0
}

// The sine of a quarter turn or less.
fn sine(quarter: f32) -> f32
    ensures { result ≡ sine_of_quarter quarter }
{
    let angle = quarter * 6.283_185_5;
    let square = angle * angle;
    angle * (1.0 + square * (SINE_3 + square * (SINE_5 + square * (SINE_7 + square * SINE_9))))
}

// The sine of a number of turns.
pub fn sin_turns(turns: f32) -> f32
    ensures { result ≡ sin_turns_of turns }
{
    let cycle = fract(turns);
    sign(cycle) * sine(quarter(half(cycle)))
}
