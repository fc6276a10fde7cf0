// Reads a program's block from standard input and writes its page on standard output. The arguments are the number of turns of the sampled shapes, 6 or 8, and the name of the block's
// file, if it has one. Two blocks are an older program and the program: the page holds one against the other. A third argument is then the name of the older block's file.
#![tactic(auto)]

ghost use Rattle.std.specs.Prelude.{◌≡◌, length};

use compared_blocks::BLOCK;
use program_input::{argument, read_full, turns_argument};
use refusals::Refusal;
use std::io;
use text::Writer;

// Room for the page, which has some 90,000 bytes, or 170,000 with an older program's curves. The contract gives its length only, which lending it as a slice asks for.
fn buffer() -> [u8; 262144]
    ensures { 262144 ≡ length result }
{
    [0; 262144]
}

// The page of a block, or of two. The writer keeps its buffer, and that its length.
#[tactic(auto, using(text::proofs::Whole::same_length))]
fn write_page(
    page: &mut Writer,
    turns: u32,
    oldfile: &[u8],
    file: &[u8],
    blocks: &[u8],
) -> Result<(), Refusal>
    ensures same_buffer { page.new.buffer.ghost_name ≡ page.old.buffer.ghost_name }
    ensures same_length { length page.new.buffer.now ≡ length page.old.buffer.now }
{
    if blocks.len() == 2 * BLOCK {
        page::comparison(
            page,
            turns,
            oldfile,
            &blocks[..BLOCK],
            file,
            &blocks[BLOCK..],
        )
    } else {
        page::page(page, turns, file, blocks)
    }
}

fn main(rt: HostRuntime) -> io::Result<()> {
    let turns = turns_argument(&rt);
    let mut blocks = [0u8; 485];
    let n = read_full(&mut rt.stdin(), &mut blocks)?;
    // a file's name has at most 255 bytes
    let mut file = [0u8; 256];
    let named = argument(&rt, 2, &mut file);
    let mut oldfile = [0u8; 256];
    let oldnamed = argument(&rt, 3, &mut oldfile);
    let mut text = buffer();
    let mut page = Writer::new(&mut text);
    let written = write_page(
        &mut page,
        turns,
        &oldfile[..oldnamed],
        &file[..named],
        &blocks[..n],
    );
    if written.is_err() {
        return rt.write_all(b"a block has 242 bytes, and turns are 6 or 8\n");
    }
    match page.whole() {
        Some(text) => rt.write_all(text),
        None => rt.write_all(b"the page is too long\n"),
    }
}
