// Where the row of a parameter stands on the page of all parameters.
#![tactic(auto)]

ghost use Rattle.text.specs.Text.{Puts};
ghost use Rattle.parameter_places.specs.Places.{place_text};

use numerals::put_decimal;
use text::{Writer, put};

// Where the row of byte n stands: 61 of them in a column.
pub fn put_place(out: &mut Writer, n: u8)
    ensures { Puts out.old (place_text n) out.new }
{
    put(out, b"<g transform='translate(");
    put_decimal(out, 1150 + 7100 * (n as u64 / 61));
    put(out, b" ");
    put_decimal(out, 2120 + 290 * (n as u64 % 61));
    put(out, b")'>");
}
