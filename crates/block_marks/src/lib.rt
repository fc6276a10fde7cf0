// The marks of the generator of a block and a code, and at a number of turns.
// The code and the turns are numbers, as C gives them: what is promised of a number that is neither needs them so.
#![tactic(auto)]

ghost use Rattle.block_choice.specs.Promises.{Answered};
ghost use Rattle.block_turns.specs.Promises.{TurnsAnswered};
ghost use Rattle.block_marks.specs.Answers.{marks_answer};

use block_choice::choose;
use block_turns::choose_turns;
use marks::Marks;
use refusals::Refusal;

pub fn marks(block: &[u8], code: u32) -> Result<Marks, Refusal>
    ensures { Answered marks_answer block.now code result }
{
    Ok(choose(block, code)?.marks())
}

pub fn marks_turns(block: &[u8], code: u32, turns: u32) -> Result<Marks, Refusal>
    ensures { TurnsAnswered marks_answer block.now code turns result }
{
    Ok(choose_turns(block, code, turns)?.marks())
}
