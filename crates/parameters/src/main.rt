// Reads a program's block from standard input and writes the page of its parameters on standard output; the argument is the name of the block's file, if it has one.
#![tactic(auto)]

ghost use Rattle.std.specs.Prelude.{◌≡◌, length};

use program_input::{argument, read_full};
use std::io;
use text::Writer;

// Room for the page, which has some 40,000 bytes. The contract gives its length only, which lending it as a slice asks for.
fn buffer() -> [u8; 65536]
    ensures { 65536 ≡ length result }
{
    [0; 65536]
}

fn print_page(to: &impl Print, file: &[u8], block: &[u8]) -> io::Result<()> {
    let mut text = buffer();
    let mut page = Writer::new(&mut text);
    match parameters_page::page(&mut page, file, block) {
        Ok(()) => match page.whole() {
            Some(text) => to.write_all(text),
            None => to.write_all(b"the page is too long\n"),
        },
        Err(_) => to.write_all(b"a block has 242 bytes\n"),
    }
}

fn main(rt: HostRuntime) -> io::Result<()> {
    let mut block = [0u8; 243];
    let n = read_full(&mut rt.stdin(), &mut block)?;
    // a file's name has at most 255 bytes
    let mut file = [0u8; 256];
    let named = argument(&rt, 1, &mut file);
    print_page(&rt, &file[..named], &block[..n])
}
