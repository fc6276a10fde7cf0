// What a block and a code say of a generator: its rest level, its scale, at a number of turns too, and whether it is anchored.
// The code and the turns are numbers, as C gives them: what is promised of a number that is neither needs them so.
#![tactic(auto)]

ghost use Rattle.block_choice.specs.Promises.{Answered};
ghost use Rattle.block_turns.specs.Promises.{TurnsAnswered};
ghost use Rattle.block_generator.specs.Answers.{rest_answer, scale_answer, anchored_answer};

use block_choice::choose;
use block_turns::choose_turns;
use generator::Scale;
use refusals::Refusal;

pub fn rest(block: &[u8], code: u32) -> Result<f32, Refusal>
    ensures { Answered rest_answer block.now code result }
{
    Ok(choose(block, code)?.rest())
}

pub fn scale(block: &[u8], code: u32) -> Result<Scale, Refusal>
    ensures { Answered scale_answer block.now code result }
{
    Ok(choose(block, code)?.scale())
}

pub fn scale_turns(block: &[u8], code: u32, turns: u32) -> Result<Scale, Refusal>
    ensures { TurnsAnswered scale_answer block.now code turns result }
{
    Ok(choose_turns(block, code, turns)?.scale())
}

pub fn anchored(block: &[u8], code: u32) -> Result<bool, Refusal>
    ensures { Answered anchored_answer block.now code result }
{
    Ok(choose(block, code)?.anchored())
}
