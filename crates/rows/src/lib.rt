// A strip as text, a row for each sample.
#![tactic(auto)]

ghost use Rattle.std.specs.Prelude.{◌≡◌, ◌<◌, ◌≤◌, length, get_or};
ghost use Rattle.text.specs.Text.{Puts};
ghost use Rattle.captions.specs.Captions.{no_caption};
ghost use Rattle.rows.specs.Rows.{decimals_text, caption_text, row_text, sample_text, some_rows, rows_text};

use captions::NO_CAPTION;
use float_bits::word_of;
use labels::put_segment;
use nine_places::put_nine_places;
use numerals::put_hex;
use strip::sample_position;
use text::{Writer, put};

// The most samples whose numbers fit 16 bits.
const MAX_ROWS: usize = 65536;

// Two numbers from 0 to 1, a space after each.
fn put_decimals(out: &mut Writer, x: f32, y: f32)
    ensures { Puts out.old (decimals_text x y) out.new }
{
    put_nine_places(out, x);
    put(out, b" ");
    put_nine_places(out, y);
    put(out, b" ");
}

// A caption after a space, if there is one.
fn put_caption(out: &mut Writer, caption: u8)
    ensures { Puts out.old (caption_text caption) out.new }
{
    if caption == NO_CAPTION {
        return;
    }
    put(out, b" ");
    put_segment(out, caption);
}

// A sample's position and its height, in decimal and as bits, and its caption.
fn put_row(out: &mut Writer, position: f32, height: f32, caption: u8)
    ensures { Puts out.old (row_text position height caption) out.new }
{
    put_decimals(out, position, height);
    put_hex(out, word_of(position));
    put(out, b" ");
    put_hex(out, word_of(height));
    put_caption(out, caption);
    put(out, b"\n");
}

// Caption number i, none past the last.
fn caption_at(captions: &[u8], i: usize) -> u8
    ensures { result ≡ get_or captions.now i no_caption }
{
    match captions.get(i) {
        Some(caption) => *caption,
        None => NO_CAPTION,
    }
}

// The row of sample i.
fn put_sample(out: &mut Writer, heights: &[f32], captions: &[u8], i: usize)
    requires { (i < length heights.now) × (length heights.now ≤ 65536) }
    ensures { Puts out.old (sample_text heights.now captions.now i) out.new }
{
    let last = (heights.len() - 1) as u16;
    let caption = caption_at(captions, i);
    put_row(out, sample_position(i as u16, last), heights[i], caption);
}

fn put_samples(out: &mut Writer, heights: &[f32], captions: &[u8])
    requires { length heights.now ≤ 65536 }
    ensures { Puts out.old (some_rows heights.now captions.now (length heights.now)) out.new }
{
    for i in 0..heights.len() {
        put_sample(out, heights, captions, i);
    }
}

// A row for each sample; of more samples than 65,536 nothing is written.
pub fn put_rows(out: &mut Writer, heights: &[f32], captions: &[u8])
    ensures { Puts out.old (rows_text heights.now captions.now) out.new }
{
    if heights.len() <= MAX_ROWS {
        put_samples(out, heights, captions);
    }
}
