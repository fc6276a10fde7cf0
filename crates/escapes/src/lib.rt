// Any bytes as text, put into a lent buffer: as XML, or as a line that can be read.
#![tactic(auto)]

ghost use Rattle.std.specs.Prelude.{◌≡◌, ◌<◌};
ghost use Rattle.text.specs.Text.{Puts};
ghost use Rattle.escapes.specs.Escaped.{upper_of, hex_byte_of, shown_of, escaped_of, escaped_all, shown_all};

use text::{Writer, put, put_byte};
use words::{index_of, put_word};

// The character of a digit, in capitals.
fn upper(d: u8) -> u8
    requires { d < 16 }
    ensures { result ≡ upper_of d }
{
    if d < 10 {
        return 48 + d;
    }
    55 + d
}

// A byte by its two digits.
fn put_hex_byte(out: &mut Writer, b: u8)
    ensures { Puts out.old (hex_byte_of b) out.new }
{
    put(out, b"\\x");
    put_byte(out, upper(b / 16));
    put_byte(out, upper(b % 16));
}

// A byte that has no meaning of its own in XML.
fn put_shown(out: &mut Writer, b: u8)
    ensures { Puts out.old (shown_of b) out.new }
{
    if b < 32 {
        return put_hex_byte(out, b);
    }
    if 126 < b {
        return put_hex_byte(out, b);
    }
    put_byte(out, b);
}

// Any byte as XML text: one that has a meaning of its own there by its entity.
pub fn put_escaped(out: &mut Writer, b: u8)
    ensures { Puts out.old (escaped_of b) out.new }
{
    match index_of(b"&<>\"'", b) {
        Some(k) => put_word(out, b"&amp;|&lt;|&gt;|&quot;|&#39;", k),
        None => put_shown(out, b),
    }
}

// Any bytes as XML text.
pub fn put_escaped_all(out: &mut Writer, text: &[u8])
    ensures { Puts out.old (escaped_all text.now) out.new }
{
    for b in text {
        put_escaped(out, *b);
    }
}

// Any bytes as a line that can be read.
pub fn put_shown_all(out: &mut Writer, text: &[u8])
    ensures { Puts out.old (shown_all text.now) out.new }
{
    for byte in text {
        put_shown(out, *byte);
    }
}
