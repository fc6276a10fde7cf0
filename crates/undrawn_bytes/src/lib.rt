// The bytes that no curve draws, in a comparison: whether any differs between two blocks, and a line for each that does.
#![tactic(auto)]

ghost use Rattle.text.specs.Text.{Puts};
ghost use Rattle.code_bytes.specs.Bytes.{byte_at};
ghost use Rattle.undrawn_bytes.specs.Undrawn.{undrawn_part};

use compared_blocks::Blocks;
use text::{Writer, put};
use undrawn_count::count_undrawn;
use undrawn_lines::put_undrawn;

// Whether any of them differs, then the lines of those that do.
pub fn put_undrawn_part(out: &mut Writer, blocks: Blocks)
    ensures { Puts out.old (undrawn_part (byte_at blocks.entry.old.now) (byte_at blocks.entry.new.now)) out.new }
{
    put(out, b"Not drawn        ");
    if count_undrawn(blocks) == 0 {
        put(out, b"same\n");
    } else {
        put(out, b"different\n");
        put_undrawn(out, blocks);
    }
}
