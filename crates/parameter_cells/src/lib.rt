// What stands in a row of the page of all parameters: a rule above a group, a dot beside what is drawn, and the cells.
#![tactic(auto)]

ghost use Rattle.text.specs.Text.{Puts};
ghost use Rattle.parameter_cells.specs.Cells.{rule_text, dot_text, cells_text};

use drawn_bytes::is_drawn;
use numerals::put_decimal;
use parameter_names::put_parameter_name;
use text::{Writer, put};

// A rule above the first row of a group.
pub fn put_rule(out: &mut Writer, n: u8)
    ensures { Puts out.old (rule_text n) out.new }
{
    let starts: [u8; 18] = [
        7, 14, 39, 53, 62, 71, 80, 93, 117, 123, 155, 165, 179, 192, 205, 218, 223, 240,
    ];
    if starts.contains(&n) {
        put(out, b"<path d='M0-220h6100'/>");
    }
}

// A dot beside what the sheet draws.
pub fn put_dot(out: &mut Writer, n: u8)
    ensures { Puts out.old (dot_text n) out.new }
{
    if is_drawn(n) {
        put(out, b"<circle cx='80' cy='-85' r='55'/>");
    }
}

// Number, name and byte.
pub fn put_cells(out: &mut Writer, n: u8, b: u8)
    ensures { Puts out.old (cells_text n b) out.new }
{
    put(out, b"<text class='k' x='640'>");
    put_decimal(out, n as u64);
    put(out, b"</text><text x='800'>");
    put_parameter_name(out, n);
    put(out, b"</text><text class='b' x='6020'>");
    put_decimal(out, b as u64);
    put(out, b"</text></g>\n");
}
