// Prints what differs between two programs: both blocks are on standard input, the old one first, and the argument is the number of turns of the sampled shapes. Any other number of bytes,
// and of turns than 6 or 8, prints one line, `refused` and the refusal's number.
#![tactic(auto)]

ghost use Rattle.std.specs.Prelude.{◌≡◌, length};

use compared_blocks::BLOCK;
use comparison::put_differences;
use program_input::{read_full, turns_argument};
use refusals::{Refusal, refusal_number};
use std::io;
use text::Writer;

// Room for the text, which has some 20,000 bytes where every byte differs. The contract gives its length only, which lending it as a slice asks for.
fn buffer() -> [u8; 32768]
    ensures { 32768 ≡ length result }
{
    [0; 32768]
}

fn refuse(to: &impl Print, r: Refusal) -> io::Result<()> {
    let number = refusal_number(r);
    println!(to; "refused {number}")
}

fn print_differences(to: &impl Print, turns: u32, both: &[u8]) -> io::Result<()> {
    let Some((old, new)) = both.split_at_checked(BLOCK) else {
        return refuse(to, Refusal::Block);
    };
    let mut text = buffer();
    let mut page = Writer::new(&mut text);
    if let Err(why) = put_differences(&mut page, turns, old, new) {
        return refuse(to, why);
    }
    match page.whole() {
        Some(text) => to.write_all(text),
        None => Ok(()),
    }
}

fn main(rt: HostRuntime) -> io::Result<()> {
    let mut both = [0u8; 485];
    let got = read_full(&mut rt.stdin(), &mut both)?;
    print_differences(&rt, turns_argument(&rt), &both[..got])
}
