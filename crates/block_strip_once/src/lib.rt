// The strip of a block and a code with one walk along it: the heights and the refusals of crate block_strip, and steps of its own.
// The code is a number, as C gives it: what is promised of a number that is no code needs it so.
#![tactic(auto)]

ghost use Rattle.std.specs.Prelude.{◌≡◌, true, length, Ok};
ghost use Rattle.shape_strip.specs.Forward.{goes_forward};
ghost use Rattle.block_strip.specs.Strips.{strip_after};
ghost use Rattle.block_strip_once.specs.Strips.{strip_once_answer};
ghost use Rattle.block_strip_once.specs.Promises.{StripOnceAnswered};

use block_choice::choose;
use generator::Generator;
use refusals::Refusal;
use shape_strip::fill_once;
use strip::fits;

// The strip of a generator. Its length is tested last, after the block and the code. What is refused leaves it as it was.
pub fn generator_strip(g: Generator, out: &mut [f32]) -> Result<u32, Refusal>
    requires { goes_forward g.shape ≡ true }
    ensures { (result ≡ strip_once_answer (Ok g) (length out.old)) × (out.new ≡ strip_after (Ok g) out.old) }
{
    if !fits(out.len()) {
        return Err(Refusal::Strip);
    }
    Ok(fill_once(g.shape, out))
}

pub fn strip_once(block: &[u8], code: u32, out: &mut [f32]) -> Result<u32, Refusal>
    ensures { StripOnceAnswered block.now code out.old out.new result }
{
    let g = choose(block, code)?;
    generator_strip(g, out)
}
