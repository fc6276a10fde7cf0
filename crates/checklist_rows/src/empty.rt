// The empty program, 242 zeros: each code's heights at 1,025 samples.
ghost use Rattle.std.specs.Prelude.{◌≡◌};
ghost use Rattle.checklist_rows.specs.Empty.{empty_input, empty_trial, from_zero_to_one};

use inputs::{input_height, part_bits};
use trials::{Input, Trial};

#[tactic(auto, unfolding(crate::specs::Empty::empty_input))]
fn empty_input(n: u16) -> Input
    ensures { result ≡ empty_input n }
{
    Input {
        code: (n / 1025) as u32,
        bytes: 0,
        position: part_bits(n % 1025, 1024),
    }
}

// A NaN is no such number.
fn from_zero_to_one(h: f32) -> bool
    ensures { result ≡ from_zero_to_one h }
{
    0.0 <= h && h <= 1.0
}

#[tactic(auto, unfolding(crate::specs::Empty::empty_trial))]
pub fn empty_trial(n: u16) -> Trial
    ensures { result ≡ empty_trial n }
{
    let input = empty_input(n);
    let h = input_height(input);
    Trial {
        right: from_zero_to_one(h.height),
        values: 1,
        input,
    }
}
