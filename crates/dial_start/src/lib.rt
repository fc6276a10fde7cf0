// How a line that says what to dial in begins: the dial's name, its byte, and, beside a byte that differs from an older block's, what it was.
#![tactic(auto)]

ghost use Rattle.text.specs.Text.{Puts};
ghost use Rattle.dial_start.specs.Start.{was_text, note_start, name_start, dial_start, dial_end};

use numerals::put_decimal;
use text::{Writer, put};

// ---- the parts of a line
pub fn put_was(out: &mut Writer, was: u8, b: u8)
    ensures { Puts out.old (was_text was b) out.new }
{
    if was != b {
        put(out, b"<tspan class='w' dx='50'>was ");
        put_decimal(out, was as u64);
        put(out, b"</tspan>");
    }
}

#[tactic(auto, unfolding(crate::specs::Start::note_start))]
fn start_note(out: &mut Writer, was: u8, b: u8)
    ensures { Puts out.old (note_start was b) out.new }
{
    if was == b {
        put(out, b"<tspan x='2750'>")
    } else {
        put(out, b"<tspan class='s' x='3380'>")
    }
}

fn start_name(out: &mut Writer, y: u64, name: &[u8])
    ensures { Puts out.old (name_start y name.now) out.new }
{
    put(out, b"<text class='d' y='");
    put_decimal(out, y);
    put(out, b"'>");
    put(out, name);
    put(out, b"<tspan class='b' x='2000'>");
}

pub fn start(out: &mut Writer, y: u64, name: &[u8], was: u8, b: u8)
    ensures { Puts out.old (dial_start y name.now was b) out.new }
{
    start_name(out, y, name);
    put_decimal(out, b as u64);
    put(out, b"</tspan>");
    put_was(out, was, b);
    start_note(out, was, b);
}

pub fn end(out: &mut Writer)
    ensures { Puts out.old dial_end out.new }
{
    put(out, b"</tspan></text>");
}
