// The generator that a block, a code and a number of turns choose, or the refusal; and its height.
// The code and the turns are numbers, as C gives them: what is promised of a number that is neither needs them so.
#![tactic(auto)]

ghost use Rattle.std.specs.Prelude.{◌≡◌};
ghost use Rattle.block_turns.specs.Choice.{chosen_turns};
ghost use Rattle.block_turns.specs.Promises.{HeightTurnsAnswered};

use block_choice::choose;
use builders::of_shape;
use curve::Height;
use generator::Generator;
use refusals::Refusal;
use shape_heights::shape_height;
use turns::{turned, turns_read};

// The turns are tested last, after the block and the code.
#[tactic(auto, using(refusals::proofs::Passed::passed_on), unfolding(crate::specs::Choice::chosen_turns, crate::specs::Choice::chosen_at))]
pub fn choose_turns(block: &[u8], code: u32, turns: u32) -> Result<Generator, Refusal>
    ensures { result ≡ chosen_turns block.now code turns }
{
    let g = choose(block, code)?;
    let sampled = turns_read(turns).ok_or(Refusal::Turns)?;
    Ok(of_shape(turned(sampled, g.shape)))
}

pub fn height_turns(block: &[u8], code: u32, turns: u32, t: f32) -> Result<Height, Refusal>
    ensures { HeightTurnsAnswered block.now code turns t result }
{
    let g = choose_turns(block, code, turns)?;
    Ok(shape_height(g.shape, t))
}
