// Captions for C callers: what crate block_captions answers, as a number.
// The code is a number, as C gives it: what is promised of a number that is no code needs it so.
#![tactic(auto)]

ghost use Rattle.std.specs.Prelude.{◌≡◌};
ghost use Rattle.refusals.specs.Refusals.{answer_refusal};
ghost use Rattle.block_captions.specs.Promises.{CaptionsAnswered};
ghost use Rattle.c_results.specs.Promises.{Returned};

use refusals::answer_refusal;

pub fn captions(block: &[u8], code: u32, out: &mut [u8]) -> u32
    ensures { Returned (λ a. result ≡ answer_refusal a) (CaptionsAnswered block.now code out.old out.new) }
{
    answer_refusal(block_captions::captions(block, code, out))
}
