// The rest level, the scale and the anchor for C callers: what crate block_generator answers, as numbers.
// The code and the turns are numbers, as C gives them: what is promised of a number that is neither needs them so.
#![tactic(auto)]

ghost use Rattle.std.specs.Prelude.{◌≡◌};
ghost use Rattle.block_choice.specs.Promises.{Answered};
ghost use Rattle.block_turns.specs.Promises.{TurnsAnswered};
ghost use Rattle.block_generator.specs.Answers.{rest_answer, scale_answer, anchored_answer};
ghost use Rattle.c_results.specs.Promises.{Returned};
ghost use Rattle.c_generator.specs.Results.{rest_result, scale_result, anchored_result};

use c_results::{AnchoredResult, RestResult, ScaleResult};
use generator::{Scale, scale_number, scale_value};
use refusals::{Refusal, refusal_number};

#[tactic(auto, unfolding(crate::specs::Results::rest_result))]
fn rest_result(answer: Result<f32, Refusal>) -> RestResult
    ensures { result ≡ rest_result answer }
{
    match answer {
        Ok(level) => RestResult { refusal: 0, level },
        Err(why) => RestResult {
            refusal: refusal_number(why),
            level: 0.0,
        },
    }
}

#[tactic(auto, unfolding(crate::specs::Results::scale_result))]
fn scale_result(answer: Result<Scale, Refusal>) -> ScaleResult
    ensures { result ≡ scale_result answer }
{
    match answer {
        Ok(scale) => ScaleResult {
            refusal: 0,
            kind: scale_number(scale),
            number: scale_value(scale),
        },
        Err(why) => ScaleResult {
            refusal: refusal_number(why),
            kind: 0,
            number: 0.0,
        },
    }
}

#[tactic(auto, unfolding(crate::specs::Results::anchored_result))]
fn anchored_result(answer: Result<bool, Refusal>) -> AnchoredResult
    ensures { result ≡ anchored_result answer }
{
    match answer {
        Ok(yes) => AnchoredResult {
            refusal: 0,
            anchored: yes as u32,
        },
        Err(why) => AnchoredResult {
            refusal: refusal_number(why),
            anchored: 0,
        },
    }
}

pub fn rest(block: &[u8], code: u32) -> RestResult
    ensures { Returned (λ a. result ≡ rest_result a) (Answered rest_answer block.now code) }
{
    rest_result(block_generator::rest(block, code))
}

pub fn scale(block: &[u8], code: u32) -> ScaleResult
    ensures { Returned (λ a. result ≡ scale_result a) (Answered scale_answer block.now code) }
{
    scale_result(block_generator::scale(block, code))
}

pub fn scale_turns(block: &[u8], code: u32, turns: u32) -> ScaleResult
    ensures { Returned (λ a. result ≡ scale_result a) (TurnsAnswered scale_answer block.now code turns) }
{
    scale_result(block_generator::scale_turns(block, code, turns))
}

pub fn anchored(block: &[u8], code: u32) -> AnchoredResult
    ensures { Returned (λ a. result ≡ anchored_result a) (Answered anchored_answer block.now code) }
{
    anchored_result(block_generator::anchored(block, code))
}
