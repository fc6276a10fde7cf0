// The captions of the samples of a block's strip.
// The code is a number, as C gives it: what is promised of a number that is no code needs it so.
#![tactic(auto)]

ghost use Rattle.block_captions.specs.Promises.{CaptionsAnswered};

use block_choice::choose;
use captions::WrongLength;
use refusals::Refusal;

// Fills the slice with the caption of each sample. What is refused leaves it as it was.
pub fn captions(block: &[u8], code: u32, out: &mut [u8]) -> Result<(), Refusal>
    ensures { CaptionsAnswered block.now code out.old out.new result }
{
    let g = choose(block, code)?;
    let captioned = captions::captions(g, out);
    match captioned {
        Ok(()) => Ok(()),
        Err(WrongLength) => Err(Refusal::Strip),
    }
}
