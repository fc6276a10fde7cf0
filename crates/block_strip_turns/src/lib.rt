// The strips of a block, a code and a number of turns, by either engine.
// The code and the turns are numbers, as C gives them: what is promised of a number that is neither needs them so.
#![tactic(auto)]

ghost use Rattle.std.specs.Prelude.{◌≡◌, length, Ok};
ghost use Rattle.block_strip.specs.Strips.{strip_answer, strip_after};
ghost use Rattle.block_strip_turns.specs.Promises.{StripTurnsAnswered, StripOnceTurnsAnswered};

use block_turns::choose_turns;
use generator::Generator;
use refusals::Refusal;
use shape_strip::fill;
use strip::fits;

// The strip of a generator, with a walk for each sample. Its length is tested last, after the block, the code and the turns. What is refused leaves it as it was.
fn plain_strip(g: Generator, out: &mut [f32]) -> Result<u32, Refusal>
    ensures { (result ≡ strip_answer (Ok g) (length out.old)) × (out.new ≡ strip_after (Ok g) out.old) }
{
    if !fits(out.len()) {
        return Err(Refusal::Strip);
    }
    Ok(fill(g.shape, out))
}

pub fn strip_turns(block: &[u8], code: u32, turns: u32, out: &mut [f32]) -> Result<u32, Refusal>
    ensures { StripTurnsAnswered block.now code turns out.old out.new result }
{
    let g = choose_turns(block, code, turns)?;
    plain_strip(g, out)
}

// The same strip with one walk along it; its steps are its own.
pub fn strip_once_turns(
    block: &[u8],
    code: u32,
    turns: u32,
    out: &mut [f32],
) -> Result<u32, Refusal>
    ensures { StripOnceTurnsAnswered block.now code turns out.old out.new result }
{
    let walked = choose_turns(block, code, turns)?;
    block_strip_once::generator_strip(walked, out)
}
