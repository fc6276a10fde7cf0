// Strips at a number of turns for C callers: what crate block_strip_turns answers, as numbers.
// The code and the turns are numbers, as C gives them: what is promised of a number that is neither needs them so.
ghost use Rattle.std.specs.Prelude.{◌≡◌};
ghost use Rattle.block_strip_turns.specs.Promises.{StripTurnsAnswered, StripOnceTurnsAnswered};
ghost use Rattle.c_results.specs.Promises.{Returned};
ghost use Rattle.c_strip.specs.Results.{strip_result};

use c_results::StripResult;
use c_strip::strip_result;

pub fn strip_turns(block: &[u8], code: u32, turns: u32, out: &mut [f32]) -> StripResult
    ensures { Returned (λ a. result ≡ strip_result a) (StripTurnsAnswered block.now code turns out.old out.new) }
{
    strip_result(block_strip_turns::strip_turns(block, code, turns, out))
}

pub fn strip_once_turns(block: &[u8], code: u32, turns: u32, out: &mut [f32]) -> StripResult
    ensures { Returned (λ a. result ≡ strip_result a) (StripOnceTurnsAnswered block.now code turns out.old out.new) }
{
    strip_result(block_strip_turns::strip_once_turns(block, code, turns, out))
}
