// A block of a program's bytes and a generator's code, settled as a known code or refused, and the height of what is settled.
// The code is a number, as C gives it: what is promised of a number that is no code needs it so.
#![tactic(auto)]

ghost use Rattle.std.specs.Prelude.{◌≡◌};
ghost use Rattle.block.specs.Refusals.{settled_of};
ghost use Rattle.block.specs.Promises.{HeightAnswered};

use code_heights::height_at;
use codes::{Code, code_read};
use curve::Height;
use refusals::Refusal;

// The bytes of a block.
pub const BLOCK: usize = 242;

// What a block and a code's number come to. The block's length is tested first, then the code.
#[tactic(auto, using(crate::proofs::Settled::settled_ok_or), unfolding(crate::specs::Refusals::settled_of))]
pub fn settle(block: &[u8], code: u32) -> Result<Code, Refusal>
    ensures { result ≡ settled_of block.now code }
{
    if block.len() != BLOCK {
        return Err(Refusal::Block);
    }
    code_read(code).ok_or(Refusal::Code)
}

// The height of what is settled.
pub fn height(block: &[u8], code: u32, t: f32) -> Result<Height, Refusal>
    ensures { HeightAnswered block.now code t result }
{
    let c = settle(block, code)?;
    let drawn = height_at(block, c, t);
    // field by field: a copy of the whole would wait for the two stores that made it
    Ok(Height {
        height: drawn.height,
        steps: drawn.steps,
    })
}
