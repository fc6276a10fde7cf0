// What the program writes.
use std::io;
use trials::{Input, Row, passes};

fn print_input(to: &impl Print, input: Input) -> io::Result<()> {
    let Input {
        code,
        bytes,
        position,
    } = input;
    println!(to; "    code {code}, bytes {bytes:x}, position {position:08x}")
}

// The row's line and, where it fails, the first inputs that fail. The answer says whether it fails.
pub fn print_row(to: &impl Print, name: &[u8], row: Row) -> io::Result<bool> {
    let fails = !passes(row);
    to.write_all(name)?;
    to.write_all(if fails { b"fail     " } else { b"pass     " })?;
    let tried = row.tried;
    println!(to; "{tried}")?;
    for input in row.inputs.iter().take(row.failed as usize) {
        print_input(to, *input)?;
    }
    Ok(fails)
}

pub fn print_verdict(to: &impl Print, failing: usize) -> io::Result<()> {
    if failing == 0 {
        return to.write_all(b"all rows pass\n");
    }
    println!(to; "{failing} rows fail")
}
