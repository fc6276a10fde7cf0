// What the row of exact heights tries: a line of the list. A line has a height's input and its bounds, in units of 2^-32: reference/exact/heights.py says how they are made. The
// bounds are rounded outward to whole units, so a height may lie up to 2^-32 further from its exact height than its code's bound; the comparison itself rounds nothing.
#![tactic(auto)]

ghost use Rattle.std.specs.Prelude.{◌≡◌, min};
ghost use Rattle.exact_trials.specs.LineTrials.{line_input, is_whole, line_trial};

use fixed_point::within;
use float_bits::low_word;
use inputs::input_height;
use number_lines::{Line, is_blank};
use trials::{Input, Trial, no_trial};

// A code in 32 bits; what does not fit is as unknown as any other above 13.
fn code_of(n: u64) -> u32
    ensures { result ≡ min n 4294967295 }
{
    n.min(0xffff_ffff) as u32
}

#[tactic(auto, unfolding(crate::specs::LineTrials::line_input))]
fn line_input(line: Line) -> Input
    ensures { result ≡ line_input line }
{
    let [code, bytes, position, ..] = line.numbers;
    Input {
        code: code_of(code),
        bytes,
        position: low_word(position),
    }
}

// Five numbers, and nothing else.
#[tactic(auto, unfolding(crate::specs::LineTrials::is_whole))]
fn is_whole(line: Line) -> bool
    ensures { result ≡ is_whole line }
{
    !line.wrong && line.letter.is_none() && line.count == 5
}

// A line has five numbers, or nothing.
#[tactic(auto, unfolding(crate::specs::LineTrials::line_trial))]
pub fn line_trial(line: Line) -> Trial
    ensures { result ≡ line_trial line }
{
    if is_blank(line) {
        return no_trial();
    }
    let input = line_input(line);
    let [_, _, _, low, high, ..] = line.numbers;
    Trial {
        right: is_whole(line) && within(input_height(input).height, low, high),
        values: 1,
        input,
    }
}
