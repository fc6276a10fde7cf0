// The settings of the generator of a block and a code.
// The code is a number, as C gives it: what is promised of a number that is no code needs it so.
#![tactic(auto)]

ghost use Rattle.block_choice.specs.Promises.{Answered};
ghost use Rattle.block_settings.specs.Answers.{settings_answer};

use block_choice::choose;
use generator::Shape;
use refusals::Refusal;

pub fn settings(block: &[u8], code: u32) -> Result<Shape, Refusal>
    ensures { Answered settings_answer block.now code result }
{
    Ok(choose(block, code)?.shape)
}
