// What is refused, and what is not: the numbers of blocks, codes, strips and levels about each limit.
use crate::report;
use curve_finder::curve_for_end;
use float_bits::float_of;
use refusals::answer_refusal;
use std::io;

// The refusal of a block of the first n bytes, and of a code.
fn print_block(to: &impl Print, label: &[u8], bytes: &[u8], n: usize, code: u32) -> io::Result<()> {
    if n <= bytes.len() {
        let refusal = answer_refusal(block::height(&bytes[..n], code, 0.0));
        report::print_count(to, label, refusal)?;
    }
    Ok(())
}

// The refusal of a strip of the first n samples.
fn print_strip(
    to: &impl Print,
    label: &[u8],
    block: &[u8],
    strip: &mut [f32],
    n: usize,
) -> io::Result<()> {
    if n <= strip.len() {
        let refusal = answer_refusal(block_strip::strip(block, 0, &mut strip[..n]));
        report::print_count(to, label, refusal)?;
    }
    Ok(())
}

fn print_blocks(to: &impl Print) -> io::Result<()> {
    let bytes = [0u8; 243];
    print_block(to, b"refusal, block of 241 bytes: ", &bytes, 241, 0)?;
    print_block(to, b"refusal, block of 242 bytes: ", &bytes, 242, 0)?;
    print_block(to, b"refusal, block of 243 bytes: ", &bytes, 243, 0)?;
    print_block(to, b"refusal, code 13: ", &bytes, 242, 13)?;
    print_block(to, b"refusal, code 14: ", &bytes, 242, 14)
}

fn print_strips(to: &impl Print) -> io::Result<()> {
    let block = [0u8; 242];
    let mut strip = [0.0f32; 4097];
    print_strip(to, b"refusal, strip of 1: ", &block, &mut strip, 1)?;
    print_strip(to, b"refusal, strip of 2: ", &block, &mut strip, 2)?;
    print_strip(to, b"refusal, strip of 4096: ", &block, &mut strip, 4096)?;
    print_strip(to, b"refusal, strip of 4097: ", &block, &mut strip, 4097)
}

// The refusal of a wanted level.
fn print_level(to: &impl Print, label: &[u8], level: f32) -> io::Result<()> {
    report::print_count(to, label, answer_refusal(curve_for_end(0, level)))
}

fn print_levels(to: &impl Print) -> io::Result<()> {
    print_level(to, b"refusal, level just below 0: ", float_of(0x8000_0001))?;
    print_level(to, b"refusal, level -0: ", -0.0)?;
    print_level(to, b"refusal, level 1: ", 1.0)?;
    print_level(to, b"refusal, level just above 1: ", float_of(0x3f80_0001))?;
    print_level(to, b"refusal, level NaN: ", 0.0 / 0.0)
}

pub fn print_refusals(to: &impl Print) -> io::Result<()> {
    print_blocks(to)?;
    print_strips(to)?;
    print_levels(to)
}
