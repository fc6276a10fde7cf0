// Where the cells of the chart of bends stand.
#![tactic(auto)]

ghost use Rattle.text.specs.Text.{Puts};
ghost use Rattle.chart_places.specs.Places.{place_text};

use numerals::put_decimal;
use text::{Writer, put};

// Where the cell of curve byte c stands: 16 of them in a row.
pub fn put_place(out: &mut Writer, c: u8)
    ensures { Puts out.old (place_text c) out.new }
{
    put(out, b"<g transform='translate(");
    put_decimal(out, 820 + 1768 * (c as u64 % 16));
    put(out, b" ");
    put_decimal(out, 1730 + 1190 * (c as u64 / 16));
    put(out, b")scale(.86 1)'>");
}
