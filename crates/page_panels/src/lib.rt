// The panels of a page that have a code: one for each, in the order of their numbers, at a number of turns for the sampled shapes.
#![tactic(auto)]

ghost use Rattle.std.specs.Prelude.{Some, ◌<◌};
ghost use Rattle.text.specs.Text.{Puts};
ghost use Rattle.page_panels.specs.Panels.{code_panel, panel_text, panels_text};

use code_shapes::shape_at;
use codes::{CODES, Code, code_from};
use compared_blocks::Blocks;
use panel_curves::{put_drawn, put_older};
use panel_dials::end_panel;
use panel_frame::put_place;
use settings::SampledTurns;
use text::Writer;
use turns::turned;

fn put_panel(out: &mut Writer, sampled: SampledTurns, blocks: Blocks, k: u8, code: Code)
    requires { k < 15 }
    ensures { Puts out.old (code_panel sampled blocks.entry.old.now blocks.entry.new.now k (Some code)) out.new }
{
    let Blocks { old, new } = blocks;
    let older = turned(sampled, shape_at(old, code));
    let shape = turned(sampled, shape_at(new, code));
    put_place(out, k);
    put_older(out, older, shape);
    put_drawn(out, shape);
    end_panel(out, old, new, k, code);
}

// The panel of a code's number.
#[tactic(auto, using(text::proofs::Writing::puts_none), unfolding(crate::specs::Panels::panel_text, crate::specs::Panels::code_panel))]
fn put_numbered(out: &mut Writer, sampled: SampledTurns, blocks: Blocks, k: u8)
    requires { k < 15 }
    ensures { Puts out.old (panel_text sampled blocks.entry.old.now blocks.entry.new.now k) out.new }
{
    if let Some(code) = code_from(k) {
        put_panel(out, sampled, blocks, k, code);
    }
}

// The panels of a block beside an older one; without an older one, beside itself.
pub fn put_panels(out: &mut Writer, sampled: SampledTurns, blocks: Blocks)
    ensures { Puts out.old (panels_text sampled blocks.entry.old.now blocks.entry.new.now 14) out.new }
{
    for k in 0..CODES {
        put_numbered(out, sampled, blocks, k);
    }
}
