// The words below a panel's title: what its horizontal covers, and whether it starts at the left edge.
#![tactic(auto)]

ghost use Rattle.std.specs.Prelude.{◌≡◌, ◌<◌};
ghost use Rattle.text.specs.Text.{Puts};
ghost use Rattle.panel_labels.specs.Labels.{nearest_whole, turns_text, scale_text, edge_text, subtitle_text};

use fixed_point::nearest;
use generator::Scale;
use numerals::put_decimal;
use text::{Writer, put};

// ---- the line between title and frame
#[tactic(auto, unfolding(crate::specs::Labels::nearest_whole))]
fn nearest_whole(x: f32) -> u64
    ensures { result ≡ nearest_whole x }
{
    nearest(x / 8.0, 8)
}

fn put_turns(out: &mut Writer, n: u64)
    ensures { Puts out.old (turns_text n) out.new }
{
    if n == 1 {
        put(out, b"1 turn, ")
    } else {
        put_decimal(out, n);
        put(out, b" turns, ")
    }
}

fn put_scale(out: &mut Writer, scale: Scale)
    ensures { Puts out.old (scale_text scale) out.new }
{
    match scale {
        Scale::Normalised => {}
        Scale::Turns(x) => put_turns(out, nearest_whole(x)),
        Scale::Octaves(x) => {
            put_decimal(out, nearest_whole(x));
            put(out, b" octaves, ")
        }
    }
}

#[tactic(auto, unfolding(crate::specs::Labels::edge_text))]
fn put_edge(out: &mut Writer, anchored: bool)
    ensures { Puts out.old (edge_text anchored) out.new }
{
    if anchored {
        put(out, b"starts at the left edge</text>")
    } else {
        put(out, b"may start anywhere</text>")
    }
}

pub fn put_subtitle(out: &mut Writer, scale: Scale, anchored: bool)
    ensures { Puts out.old (subtitle_text scale anchored) out.new }
{
    put(out, b"<text y='-2600'>");
    put_scale(out, scale);
    put_edge(out, anchored);
}
