// The captions below an envelope's frame: a row of cells, one for each segment that has samples.
#![tactic(auto)]

ghost use Rattle.std.specs.Prelude.{◌<◌, ◌≤◌};
ghost use Rattle.text.specs.Text.{Puts};
ghost use Rattle.panel_captions.specs.Captions.{name_text, outline_text, label_text, cell_between, edge_text, captions_text};

use caption_cells::{cell_end, start_of};
use labels::put_segment;
use numerals::put_decimal;
use panel_line::SAMPLES;
use text::{Writer, put};
use words::put_word;

// The widths that the names need, in hundredths of a millimetre.
const NAMES: [u64; 4] = [800, 800, 920, 980];

// The name of segment k, where it fits between the edges of its cell, or its letter.
#[tactic(auto, unfolding(crate::specs::Captions::name_text))]
fn put_name(out: &mut Writer, k: u8, left: u64, end: u64)
    requires { (k < 4) × (left ≤ end) }
    ensures { Puts out.old (name_text k left end) out.new }
{
    if NAMES[k as usize] <= end - left {
        put_segment(out, k)
    } else {
        put_word(out, b"A|D|S|R", k as usize)
    }
}

fn put_outline(out: &mut Writer, start: u64, left: u64, end: u64)
    ensures { Puts out.old (outline_text start left end) out.new }
{
    put(out, b"<path class='v' d='M");
    put_decimal(out, start);
    put(out, b"-2500V20L");
    put_decimal(out, left);
    put(out, b" 160V450H");
    put_decimal(out, end);
    put(out, b"'/>");
}

fn put_label(out: &mut Writer, k: u8, left: u64, end: u64)
    requires { (k < 4) × (left ≤ end) × (end ≤ 20000) }
    ensures { Puts out.old (label_text k left end) out.new }
{
    put(out, b"<text class='m' x='");
    put_decimal(out, (left + end) / 2);
    put(out, b"' y='391'>");
    put_name(out, k, left, end);
    put(out, b"</text>");
}

// The cell of segment k, whose samples start at `start`.
fn put_cell(out: &mut Writer, k: u8, start: u64, left: u64, end: u64)
    requires { (k < 4) × (end ≤ 20000) }
    ensures { Puts out.old (cell_between k start left end) out.new }
{
    if left < end {
        put_outline(out, start, left, end);
        put_label(out, k, left, end);
    }
}

fn put_edge(out: &mut Writer, end: u64)
    ensures { Puts out.old (edge_text end) out.new }
{
    put(out, b"<path class='v' d='M");
    put_decimal(out, end);
    put(out, b" 160V450'/>");
}

pub fn put_captions(out: &mut Writer, captions: &[u8; SAMPLES])
    ensures { Puts out.old (captions_text captions.now) out.new }
{
    let mut left: u64 = 0;
    for k in 0..4 {
        let end = cell_end(captions, k, left);
        put_cell(out, k, start_of(captions, k), left, end);
        left = end;
    }
    put_edge(out, left);
}
