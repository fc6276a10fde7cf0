// The two blocks of a comparison.
#![tactic(auto)]

ghost use Rattle.std.specs.Prelude.{◌≡◌, IfOk, length};
ghost use Rattle.refusals.specs.Refusals.{accepted, answer_refusal, check_block};

use refusals::Refusal;

// The bytes of a block.
pub const BLOCK: usize = 242;

// Two blocks that are held against each other.
#[derive(Clone, Copy)]
pub struct Blocks<'a> {
    pub old: &'a [u8; BLOCK],
    pub new: &'a [u8; BLOCK],
}

// A block of another length is refused.
#[tactic(auto, unfolding(refusals::specs::Refusals::check_block))]
pub fn block_of(bytes: &[u8]) -> Result<&[u8; BLOCK], Refusal>
    ensures block { IfOk result (λ b. b.now ≡ bytes.now) }
    ensures refusal { answer_refusal result ≡ check_block (length bytes.now) accepted }
{
    <&[u8; BLOCK]>::try_from(bytes).map_err(|_| Refusal::Block)
}

impl<'a> Blocks<'a> {
    #[tactic(auto, unfolding(refusals::specs::Refusals::check_block))]
    pub fn new(old: &'a [u8], new: &'a [u8]) -> Result<Blocks<'a>, Refusal>
        ensures blocks { IfOk result (λ b. (b.old.now ≡ old.now) × (b.new.now ≡ new.now)) }
        ensures refusal { answer_refusal result ≡ check_block (length old.now) (check_block (length new.now) accepted) }
    {
        Ok(Blocks {
            old: block_of(old)?,
            new: block_of(new)?,
        })
    }
}
