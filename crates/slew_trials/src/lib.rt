// Slew at 1 and at 255: the steps of LFO 1's walk, which has 96 to a turn, and a turn before the left edge.
#![tactic(auto)]

ghost use Rattle.std.specs.Prelude.{◌≡◌, ◌≤◌};
ghost use Rattle.slew_trials.specs.Slew.{least_steps, most_steps, slew_byte, slew_input, slew_steps, steps_before, enough, slew_trial};

use inputs::{input_height, lfo_input, part_bits};
use trials::{Input, Trial};

// The steps to part i of 64, rounded up: 96 for each of six turns, or for one.
#[tactic(auto, unfolding(crate::specs::Slew::least_steps))]
fn least_steps(i: u16, six: bool) -> u32
    ensures { (result ≡ least_steps i six) × (result ≤ 600000) }
{
    let turns = if six {
        9 * i as u32
    } else {
        (3 * i as u32 + 1) / 2
    };
    96 + turns
}

// At the edges exactly as many; between them a place that is rounded to just below the phase takes one more.
#[tactic(auto, unfolding(crate::specs::Slew::most_steps))]
fn most_steps(i: u16, six: bool) -> u32
    ensures { result ≡ most_steps i six }
{
    let least = least_steps(i, six);
    if i == 0 || i == 64 {
        return least;
    }
    least + 1
}

// k is a digit of the trial's number, as in the definition: an enum would be made of it and taken apart at once.
#[tactic(auto, unfolding(crate::specs::Slew::slew_byte))]
fn slew_byte(k: u16) -> u32
    ensures { result ≡ slew_byte k }
{
    if k == 0 {
        return 1;
    }
    255
}

// Each shape has 65 positions at slew 1, then at slew 255.
#[tactic(auto, unfolding(crate::specs::Slew::slew_input))]
fn slew_input(n: u16) -> Input
    ensures { result ≡ slew_input n }
{
    lfo_input(
        (n / 130) as u32,
        slew_byte(n / 65 % 2),
        part_bits(n % 65, 64),
    )
}

#[tactic(auto, unfolding(crate::specs::Slew::slew_steps))]
fn slew_steps(n: u16) -> u32
    ensures { result ≡ slew_steps n }
{
    input_height(slew_input(n)).steps
}

// The steps at the position before; at the first none.
#[tactic(auto, unfolding(crate::specs::Slew::steps_before))]
fn steps_before(n: u16) -> u32
    ensures { result ≡ steps_before n }
{
    if n % 65 == 0 {
        return 0;
    }
    slew_steps(n - 1)
}

// Never fewer than needed, never fewer than before.
#[tactic(auto, unfolding(crate::specs::Slew::enough))]
fn is_enough(steps: u32, before: u32, i: u16, six: bool) -> bool
    ensures { result ≡ enough steps before i six }
{
    before <= steps && least_steps(i, six) <= steps && steps <= most_steps(i, six)
}

// The samples, shapes 5 and 6, have six turns, the other shapes one.
#[tactic(auto, unfolding(crate::specs::Slew::slew_trial))]
pub fn slew_trial(n: u16) -> Trial
    ensures { result ≡ slew_trial n }
{
    Trial {
        right: is_enough(slew_steps(n), steps_before(n), n % 65, 4 < n / 130),
        values: 1,
        input: slew_input(n),
    }
}
