// What a page is of: the program's name, the file of its block, and the block's CRC-32.
#![tactic(auto)]

ghost use Rattle.std.specs.Prelude.{◌≡◌, length};
ghost use Rattle.text.specs.Text.{Puts};
ghost use Rattle.code_bytes.specs.Bytes.{block_length};
ghost use Rattle.provenance.specs.Provenance.{name_text, file_name, file_text};

use escapes::put_escaped_all;
use fingerprint::crc32;
use numerals::put_hex;
use program_name::put_name_in_xml;
use text::{Writer, put};

// The name, and what stands in its place where it has no character.
pub fn put_name(out: &mut Writer, file: &[u8], block: &[u8])
    requires { length block.now ≡ block_length }
    ensures { Puts out.old (name_text file.now block.now) out.new }
{
    if file.len() == 0 {
        return put_name_in_xml(out, block, b"(empty program)");
    }
    put_name_in_xml(out, block, b"(no name)");
}

fn put_file_name(out: &mut Writer, file: &[u8])
    ensures { Puts out.old (file_name file.now) out.new }
{
    if file.len() == 0 {
        return put(out, b"No file");
    }
    put(out, b"File ");
    put_escaped_all(out, file);
}

// Which file the block is from, and its CRC-32.
pub fn put_file(out: &mut Writer, file: &[u8], block: &[u8])
    ensures { Puts out.old (file_text file.now block.now) out.new }
{
    put_file_name(out, file);
    put(out, b", CRC-32 ");
    put_hex(out, crc32(block));
}
