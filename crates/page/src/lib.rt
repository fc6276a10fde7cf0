// A program's sheet as one page of SVG, A4 landscape: the name, a panel for each generator, the arpeggio's gates; and the page of two programs held against each other.
// The turns are a number, as a caller gives them: what is promised of a number that is none needs them so.
#![tactic(auto)]

ghost use Rattle.std.specs.Prelude.{◌≡◌, length};
ghost use Rattle.text.specs.Text.{Puts};
ghost use Rattle.refusals.specs.Refusals.{accepted, answer_refusal, check_block, check_turns};
ghost use Rattle.page.specs.Page.{body_text, page_of, comparison_of, page_text, comparison_text};

use compared_blocks::{BLOCK, Blocks, block_of};
use compared_head::put_compared_head;
use page_end::end_page;
use page_head::{put_head, put_style};
use page_panels::put_panels;
use refusals::Refusal;
use settings::SampledTurns;
use text::Writer;
use turns::turns_read;

// ---- the whole
fn put_body(out: &mut Writer, sampled: SampledTurns, file: &[u8], blocks: Blocks)
    ensures { Puts out.old (body_text sampled file.now blocks.entry.old.now blocks.entry.new.now) out.new }
{
    let Blocks { old, new } = blocks;
    put_panels(out, sampled, blocks);
    end_page(out, file, old, new);
}

fn put_page(out: &mut Writer, sampled: SampledTurns, file: &[u8], block: &[u8; BLOCK])
    ensures { Puts out.old (page_of sampled file.now block.now) out.new }
{
    put_style(out);
    put_head(out, file, block);
    put_body(
        out,
        sampled,
        file,
        Blocks {
            old: block,
            new: block,
        },
    );
}

fn put_comparison(
    out: &mut Writer,
    sampled: SampledTurns,
    oldfile: &[u8],
    file: &[u8],
    blocks: Blocks,
)
    ensures { Puts out.old (comparison_of sampled oldfile.now blocks.entry.old.now file.now blocks.entry.new.now) out.new }
{
    put_style(out);
    put_compared_head(out, oldfile, file, blocks);
    put_body(out, sampled, file, blocks);
}

// The page of a block. `file` is the name of the block's file. A block of another length, or a number of turns other than 6 or 8, has none, and the answer is why.
#[tactic(auto, using(text::proofs::Writing::puts_none), unfolding(crate::specs::Page::page_text, refusals::specs::Refusals::check_block, refusals::specs::Refusals::check_turns, turns::specs::Turns::turns_text, turns::specs::Turns::turns_read))]
pub fn page(out: &mut Writer, turns: u32, file: &[u8], block: &[u8]) -> Result<(), Refusal>
    ensures text { Puts out.old (page_text turns file.now block.now) out.new }
    ensures refusal { answer_refusal result ≡ check_block (length block.now) (check_turns turns accepted) }
{
    let block = block_of(block)?;
    let sampled = turns_read(turns).ok_or(Refusal::Turns)?;
    put_page(out, sampled, file, block);
    Ok(())
}

// The same of a block beside an older one: what differs is drawn in grey beneath, and says what it was. A block of another length, old or new, has no page.
#[tactic(auto, using(text::proofs::Writing::puts_none), unfolding(crate::specs::Page::comparison_text, refusals::specs::Refusals::check_block, refusals::specs::Refusals::check_turns, turns::specs::Turns::turns_text, turns::specs::Turns::turns_read))]
pub fn comparison(
    out: &mut Writer,
    turns: u32,
    oldfile: &[u8],
    older: &[u8],
    file: &[u8],
    block: &[u8],
) -> Result<(), Refusal>
    ensures text { Puts out.old (comparison_text turns oldfile.now older.now file.now block.now) out.new }
    ensures refusal { answer_refusal result ≡ check_block (length older.now) (check_block (length block.now) (check_turns turns accepted)) }
{
    let blocks = Blocks::new(older, block)?;
    let sampled = turns_read(turns).ok_or(Refusal::Turns)?;
    put_comparison(out, sampled, oldfile, file, blocks);
    Ok(())
}
