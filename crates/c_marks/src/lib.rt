// The marks for C callers: what crate block_marks answers, as numbers in two lent arrays.
// The code and the turns are numbers, as C gives them: what is promised of a number that is neither needs them so.
#![tactic(auto)]

ghost use Rattle.block_choice.specs.Promises.{Answered};
ghost use Rattle.block_turns.specs.Promises.{TurnsAnswered};
ghost use Rattle.block_marks.specs.Answers.{marks_answer};
ghost use Rattle.c_results.specs.Promises.{Returned};
ghost use Rattle.mark_numbers.specs.Results.{MarksNumbers};

use c_results::CountResult;
use mark_numbers::copy_marks;
use marks::MAX_MARKS;

pub fn marks(
    block: &[u8],
    code: u32,
    at: &mut [f32; MAX_MARKS],
    kind: &mut [u8; MAX_MARKS],
) -> CountResult
    ensures { Returned (λ a. MarksNumbers a at.old at.new kind.old kind.new result) (Answered marks_answer block.now code) }
{
    copy_marks(block_marks::marks(block, code), at, kind)
}

pub fn marks_turns(
    block: &[u8],
    code: u32,
    turns: u32,
    at: &mut [f32; MAX_MARKS],
    kind: &mut [u8; MAX_MARKS],
) -> CountResult
    ensures { Returned (λ a. MarksNumbers a at.old at.new kind.old kind.new result) (TurnsAnswered marks_answer block.now code turns) }
{
    copy_marks(block_marks::marks_turns(block, code, turns), at, kind)
}
