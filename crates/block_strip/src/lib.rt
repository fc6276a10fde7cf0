// The strip of a block and a code: heights from the left edge to the right, or a refusal.
// The code is a number, as C gives it: what is promised of a number that is no code needs it so.
#![tactic(auto)]

ghost use Rattle.std.specs.Prelude.{◌≡◌, ◌≤◌, length};
ghost use Rattle.block.specs.Refusals.{chosen_of};
ghost use Rattle.block_strip.specs.Strips.{strip_answer, strip_after};
ghost use Rattle.block_strip.specs.Promises.{StripAnswered};

use block::settle;
use code_strip::strip_at;
use refusals::Refusal;
use strip::fits;

// ---- the strip of what is settled, from the left edge to the right: the sum of its samples' steps. What is refused leaves it as it was.
// A strip whose length fits. That is tested before the code is read, so that the code is decided on once: here, and by the loop of its family.
fn fitting_strip(block: &[u8], code: u32, out: &mut [f32]) -> Result<u32, Refusal>
    requires { (2 ≤ length out.old) × (length out.old ≤ 4096) }
    ensures { (result ≡ strip_answer (chosen_of block.now code) (length out.old)) × (out.new ≡ strip_after (chosen_of block.now code) out.old) }
{
    let c = settle(block, code)?;
    Ok(strip_at(block, c, out))
}

// A strip whose length does not fit is refused as one of no samples is: for its length last, after the block and the code.
#[tactic(auto, using(refusals::proofs::Passed::passed_on), unfolding(block::specs::Refusals::chosen_of, block::specs::Refusals::chosen_by, crate::specs::Strips::strip_answer))]
fn unfit_strip(block: &[u8], code: u32) -> Result<u32, Refusal>
    ensures { result ≡ strip_answer (chosen_of block.now code) 0 }
{
    settle(block, code)?;
    Err(Refusal::Strip)
}

pub fn strip(block: &[u8], code: u32, out: &mut [f32]) -> Result<u32, Refusal>
    ensures { StripAnswered block.now code out.old out.new result }
{
    if !fits(out.len()) {
        return unfit_strip(block, code);
    }
    fitting_strip(block, code, out)
}
