// How many of the bytes that no curve draws differ between two blocks.
#![tactic(auto)]

ghost use Rattle.std.specs.Prelude.{◌≡◌, ◌≤◌};
ghost use Rattle.code_bytes.specs.Bytes.{byte_at, block_length};
ghost use Rattle.undrawn_count.specs.Count.{differs, undrawn_count};

use compared_blocks::Blocks;
use drawn_bytes::{BYTES, is_drawn};

// Whether byte n, of which a is the old and b the new, differs and is not drawn.
#[tactic(auto, unfolding(crate::specs::Count::differs))]
pub fn differs_undrawn(n: u8, a: u8, b: u8) -> bool
    ensures { result ≡ differs n a b }
{
    a != b && !is_drawn(n)
}

// How many bytes differ and are not drawn.
#[tactic(auto, using(crate::proofs::ByteCount::count_more), unfolding(crate::specs::Count::undrawn_count))]
pub fn count_undrawn(blocks: Blocks) -> u64
    ensures { (result ≡ undrawn_count block_length (byte_at blocks.entry.old.now) (byte_at blocks.entry.new.now)) × (result ≤ block_length) }
{
    let mut count: u64 = 0;
    for n in 0..BYTES {
        count += u64::from(differs_undrawn(n, blocks.old[n as usize], blocks.new[n as usize]));
    }
    count
}
