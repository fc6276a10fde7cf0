// What the program writes.
use crate::replay::Tally;
use std::io;

pub fn print_byte(to: &impl Print, b: u8) -> io::Result<()> {
    to.write_all(&[b])
}

pub fn print_number(to: &impl Print, n: u64) -> io::Result<()> {
    print!(to; " {n:x}")
}

pub fn print_expected(to: &impl Print, word: u32) -> io::Result<()> {
    to.write_all(b" (expected")?;
    print_number(to, word as u64)?;
    to.write_all(b")")
}

pub fn print_unanswered(to: &impl Print, expected: u32) -> io::Result<()> {
    to.write_all(b" nothing")?;
    print_expected(to, expected)
}

pub fn print_wrong_line(to: &impl Print) -> io::Result<()> {
    to.write_all(b"wrong line\n")
}

pub fn print_count(to: &impl Print, label: &[u8], n: u32) -> io::Result<()> {
    to.write_all(label)?;
    println!(to; "{n}")
}

// How many words of a generator were compared.
fn print_generators(to: &impl Print, tally: Tally) -> io::Result<()> {
    print_count(to, b"settings ", tally.settings)?;
    print_count(to, b"heights ", tally.heights)?;
    print_count(to, b"steps ", tally.steps)?;
    print_count(to, b"marks ", tally.marks)?;
    print_count(to, b"rest, scale, anchored ", tally.others)
}

pub fn print_tally(to: &impl Print, tally: Tally) -> io::Result<()> {
    print_generators(to, tally)?;
    print_count(to, b"gates ", tally.gates)?;
    print_count(to, b"taps ", tally.taps)?;
    print_count(to, b"blocks ", tally.blocks)?;
    print_count(to, b"unanswered ", tally.unanswered)?;
    print_count(to, b"different ", tally.different)
}
