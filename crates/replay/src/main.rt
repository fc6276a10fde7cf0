// Replays a list of the reference's answers, which it reads from standard input: computes each again, and prints the list with the words that it
// computed, beside each that differs the word expected, and how many it compared. reference/generator/list.rs says what the list's lines mean. Before it,
// the numbers of what is refused and of what is not.
#![tactic(auto)]

mod limits;
mod replay;
mod report;
mod whole;

ghost use Rattle.std.specs.Prelude.{◌≡◌, length};

use program_input::read_full;
use std::io;

// As many zeros, whose length is told by N and not counted out.
fn zeros<const N: usize>() -> [u8; N]
    ensures { N ≡ length result }
{
    [0; N]
}

// Room for the list. The contract gives its length only, which lending it as a slice asks for.
fn room() -> [u8; 524288]
    ensures { 524288 ≡ length result }
{
    zeros()
}

fn main(rt: HostRuntime) -> io::Result<()> {
    let mut text = room();
    let n = read_full(&mut rt.stdin(), &mut text)?;
    if n == 524288 {
        return rt.write_all(b"the list is too long\n");
    }
    limits::print_refusals(&rt)?;
    let tally = replay::replay(&rt, &text[..n])?;
    report::print_tally(&rt, tally)
}
