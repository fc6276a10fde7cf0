// Heights for C callers: what crates block and block_turns answer, as numbers.
// The code and the turns are numbers, as C gives them: what is promised of a number that is neither needs them so.
#![tactic(auto)]

ghost use Rattle.std.specs.Prelude.{◌≡◌};
ghost use Rattle.block.specs.Promises.{HeightAnswered};
ghost use Rattle.block_turns.specs.Promises.{HeightTurnsAnswered};
ghost use Rattle.c_results.specs.Promises.{Returned};
ghost use Rattle.c_heights.specs.Results.{height_result};

use c_results::HeightResult;
use curve::Height;
use refusals::{Refusal, refusal_number};

#[tactic(auto, unfolding(crate::specs::Results::height_result))]
pub fn height_result(answer: Result<Height, Refusal>) -> HeightResult
    ensures { result ≡ height_result answer }
{
    match answer {
        Ok(h) => HeightResult {
            refusal: 0,
            steps: h.steps,
            height: h.height,
        },
        Err(why) => HeightResult {
            refusal: refusal_number(why),
            steps: 0,
            height: 0.0,
        },
    }
}

pub fn height(block: &[u8], code: u32, t: f32) -> HeightResult
    ensures { Returned (λ a. result ≡ height_result a) (HeightAnswered block.now code t) }
{
    height_result(block::height(block, code, t))
}

pub fn height_turns(block: &[u8], code: u32, turns: u32, t: f32) -> HeightResult
    ensures { Returned (λ a. result ≡ height_result a) (HeightTurnsAnswered block.now code turns t) }
{
    height_result(block_turns::height_turns(block, code, turns, t))
}
