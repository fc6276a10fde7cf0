// A curve byte for a wanted end, as text.
#![tactic(auto)]

ghost use Rattle.text.specs.Text.{Puts};
ghost use Rattle.curve_lines.specs.Lines.{number_line, found_text, none_text, search_text, curve_text};

use curve_finder::Search;
use envelope_settings::sustain_end;
use nine_places::put_nine_places;
use numerals::put_decimal;
use refusals::{Refusal, refusal_number};
use text::{Writer, put};

// A number on a line, behind what it is.
fn put_number(out: &mut Writer, name: &[u8], n: u32)
    ensures { Puts out.old (number_line name.now n) out.new }
{
    put(out, name);
    put_decimal(out, n as u64);
    put(out, b"\n");
}

fn put_found(out: &mut Writer, sustain: u8, byte: u8, tried: u32)
    ensures { Puts out.old (found_text sustain byte tried) out.new }
{
    put_number(out, b"curve byte ", byte as u32);
    put(out, b"ends at    ");
    put_nine_places(out, sustain_end(sustain, byte));
    put(out, b"\n");
    put_number(out, b"tried      ", tried);
}

fn put_none(out: &mut Writer, tried: u32)
    ensures { Puts out.old (none_text tried) out.new }
{
    put(
        out,
        b"curve byte none: no end lies within 1/512 of the level\n",
    );
    put_number(out, b"tried      ", tried);
}

fn put_search(out: &mut Writer, sustain: u8, search: Search)
    ensures { Puts out.old (search_text sustain search) out.new }
{
    match search.byte {
        Some(byte) => put_found(out, sustain, byte, search.tried),
        None => put_none(out, search.tried),
    }
}

// The answer for a sustain byte.
pub fn put_curve(out: &mut Writer, sustain: u8, answer: Result<Search, Refusal>)
    ensures { Puts out.old (curve_text sustain answer) out.new }
{
    match answer {
        Ok(search) => put_search(out, sustain, search),
        Err(why) => put_number(out, b"refused ", refusal_number(why)),
    }
}
