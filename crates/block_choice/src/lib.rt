// The generator that a block and a code choose, or the refusal; and what is promised of an answer that follows from it.
// The code is a number, as C gives it: what is promised of a number that is no code needs it so.
#![tactic(auto)]

ghost use Rattle.std.specs.Prelude.{◌≡◌};
ghost use Rattle.block.specs.Refusals.{chosen_of};

use block::settle;
use builders::of_shape;
use code_shapes::shape_at;
use generator::Generator;
use refusals::Refusal;

// The generator of what is settled.
#[tactic(auto, using(refusals::proofs::Passed::passed_on, block::proofs::KnownCode::settled_length), unfolding(block::specs::Refusals::chosen_of, block::specs::Refusals::chosen_by))]
pub fn choose(block: &[u8], code: u32) -> Result<Generator, Refusal>
    ensures { result ≡ chosen_of block.now code }
{
    let c = settle(block, code)?;
    Ok(of_shape(shape_at(block, c)))
}
