// Prints a strip as text, an envelope's with the caption of each sample: the arguments are a generator's code, how many samples, and the turns of the sampled shapes, and the block is on standard input. What is refused prints one line, `refused` and the refusal's number.
#![tactic(auto)]

ghost use Rattle.std.specs.Prelude.{◌≡◌, ◌≤◌, length};

use program_input::{number_argument, read_full};
use refusals::{Refusal, refusal_number};
use rows::put_rows;
use std::io;
use text::Writer;

// Room for one sample more than the longest strip has, for their captions, and for the rows of that. The contracts give the lengths only, which lending them as slices asks for.
fn samples() -> [f32; 4097]
    ensures { 4097 ≡ length result }
{
    [0.0; 4097]
}

fn segments() -> [u8; 4097]
    ensures { 4097 ≡ length result }
{
    [0; 4097]
}

fn page() -> [u8; 210000]
    ensures { 210000 ≡ length result }
{
    [0; 210000]
}

fn refuse(to: &impl Print, r: Refusal) -> io::Result<()> {
    let number = refusal_number(r);
    println!(to; "refused {number}")
}

fn print_rows(to: &impl Print, heights: &[f32], captions: &[u8]) -> io::Result<()> {
    let mut text = page();
    let mut page = Writer::new(&mut text);
    put_rows(&mut page, heights, captions);
    match page.whole() {
        Some(text) => to.write_all(text),
        None => Ok(()),
    }
}

// A strip that is filled, with the captions of its samples: what would refuse them has not refused the strip.
fn print_captioned(
    to: &impl Print,
    block: &[u8],
    code: u32,
    heights: &[f32],
    captions: &mut [u8],
) -> io::Result<()> {
    let _ = block_captions::captions(block, code, captions);
    print_rows(to, heights, captions)
}

// A strip of n samples, in the first n places of `heights`, and their captions in those of `captions`.
fn print_strip(
    to: &impl Print,
    block: &[u8],
    code: u32,
    turns: u32,
    heights: &mut [f32],
    captions: &mut [u8],
    n: usize,
) -> io::Result<()>
    requires heights { n ≤ length heights.old }
    requires captions { n ≤ length captions.old }
{
    match block_strip_turns::strip_once_turns(block, code, turns, &mut heights[..n]) {
        Ok(_) => print_captioned(to, block, code, &heights[..n], &mut captions[..n]),
        Err(r) => refuse(to, r),
    }
}

fn main(rt: HostRuntime) -> io::Result<()> {
    let code = number_argument(&rt, 1, 255) as u32;
    let n = number_argument(&rt, 2, 4097) as usize;
    let turns = number_argument(&rt, 3, 255) as u32;
    let mut block = [0u8; 243];
    let got = read_full(&mut rt.stdin(), &mut block)?;
    let mut heights = samples();
    let mut captions = segments();
    print_strip(
        &rt,
        &block[..got],
        code,
        turns,
        &mut heights,
        &mut captions,
        n,
    )
}
