// Strips for C callers: what crates block_strip and block_strip_once answer, as numbers.
// The code is a number, as C gives it: what is promised of a number that is no code needs it so.
#![tactic(auto)]

ghost use Rattle.std.specs.Prelude.{◌≡◌};
ghost use Rattle.block_strip.specs.Promises.{StripAnswered};
ghost use Rattle.block_strip_once.specs.Promises.{StripOnceAnswered};
ghost use Rattle.c_results.specs.Promises.{Returned};
ghost use Rattle.c_strip.specs.Results.{strip_result};

use c_results::StripResult;
use refusals::{Refusal, refusal_number};

#[tactic(auto, unfolding(crate::specs::Results::strip_result))]
pub fn strip_result(answer: Result<u32, Refusal>) -> StripResult
    ensures { result ≡ strip_result answer }
{
    match answer {
        Ok(steps) => StripResult { refusal: 0, steps },
        Err(why) => StripResult {
            refusal: refusal_number(why),
            steps: 0,
        },
    }
}

pub fn strip(block: &[u8], code: u32, out: &mut [f32]) -> StripResult
    ensures { Returned (λ a. result ≡ strip_result a) (StripAnswered block.now code out.old out.new) }
{
    strip_result(block_strip::strip(block, code, out))
}

pub fn strip_once(block: &[u8], code: u32, out: &mut [f32]) -> StripResult
    ensures { Returned (λ a. result ≡ strip_result a) (StripOnceAnswered block.now code out.old out.new) }
{
    strip_result(block_strip_once::strip_once(block, code, out))
}
