// The program's name, as XML and as a line that can be read.
#![tactic(auto)]

ghost use Rattle.std.specs.Prelude.{◌≡◌, ◌≢◌, ◌≤◌, length, MatchOption};
ghost use Rattle.text.specs.Text.{Puts};
ghost use Rattle.code_bytes.specs.Bytes.{block_length};
ghost use Rattle.program_name.specs.ProgramName.{name_end, program_name, name_in_xml, name_in_line};

use escapes::{put_escaped_all, put_shown_all};
use text::{Writer, put};

// The bytes of the name, with its terminator.
const NAME: usize = 223;

const NAME_END: usize = 240;

// Where the name ends: at its first 0, or after its last byte.
fn name_end(block: &[u8]) -> usize
    requires { length block.now ≡ block_length }
    ensures { (result ≡ name_end block.now) × (223 ≤ result) × (result ≤ 240) }
{
    for i in NAME..NAME_END {
        if block[i] == 0 {
            return i;
        }
    }
    NAME_END
}

// The name, if it has a character.
fn name(block: &[u8]) -> Option<&[u8]>
    requires { length block.now ≡ block_length }
    ensures { MatchOption result (name_end block.now ≡ 223) (λ name. (name_end block.now ≢ 223) × (name.now ≡ program_name block.now)) }
{
    let end = name_end(block);
    if end == NAME {
        return None;
    }
    Some(&block[NAME..end])
}

// The name as XML, or `unnamed` where it has no character.
pub fn put_name_in_xml(out: &mut Writer, block: &[u8], unnamed: &[u8])
    requires { length block.now ≡ block_length }
    ensures { Puts out.old (name_in_xml unnamed.now block.now) out.new }
{
    match name(block) {
        Some(name) => put_escaped_all(out, name),
        None => put(out, unnamed),
    }
}

// The same as a line that can be read.
pub fn put_name_in_line(out: &mut Writer, block: &[u8], unnamed: &[u8])
    requires { length block.now ≡ block_length }
    ensures { Puts out.old (name_in_line unnamed.now block.now) out.new }
{
    match name(block) {
        Some(name) => put_shown_all(out, name),
        None => put(out, unnamed),
    }
}
