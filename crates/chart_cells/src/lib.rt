// A cell of the chart of bends: a curve byte, its bend in six places, and the bits of the bend.
#![tactic(auto)]

ghost use Rattle.text.specs.Text.{Puts};
ghost use Rattle.chart_cells.specs.Cells.{six_places, numbers_text, cell_text};

use bend::bend;
use chart_places::put_place;
use fixed_point::nearest;
use float_bits::word_of;
use numerals::{put_decimal, put_fixed, put_hex};
use text::{Writer, put};

// A quarter of a bend is exact, and a number from 0 to 1.
fn put_bend(out: &mut Writer, c: u8)
    ensures { Puts out.old (six_places c) out.new }
{
    put_fixed(out, nearest(bend(c) * 0.25, 4_000_000), 6);
}

// Its six places, and below them its bits.
fn put_numbers(out: &mut Writer, c: u8)
    ensures { Puts out.old (numbers_text c) out.new }
{
    put_bend(out, c);
    put(out, b"</text><text y='780'>");
    put_hex(out, word_of(bend(c)));
}

pub fn put_cell(out: &mut Writer, c: u8)
    ensures { Puts out.old (cell_text c) out.new }
{
    put_place(out, c);
    put(out, b"<text class='c'>");
    put_decimal(out, c as u64);
    put(out, b"</text><text y='390'>");
    put_numbers(out, c);
    put(out, b"</text></g>\n");
}
