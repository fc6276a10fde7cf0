// Prints the floor of one f32, worked as on paper. The argument is its bit pattern; of anything else it prints `refused`.
#![tactic(auto)]

use floor_lines::put_working;
use hex_reading::read_pattern;
use program_input::argument;
use std::io;
use text::Writer;

fn refuse(to: &impl Print) -> io::Result<()> {
    to.write_all(b"refused\n")
}

fn print_working(to: &impl Print, b: u32) -> io::Result<()> {
    let mut text = [0u8; 512];
    let mut page = Writer::new(&mut text);
    put_working(&mut page, b);
    match page.whole() {
        Some(text) => to.write_all(text),
        None => Ok(()),
    }
}

fn main(rt: HostRuntime) -> io::Result<()> {
    let mut text = [0u8; 16];
    let n = argument(&rt, 1, &mut text);
    match read_pattern(&text[..n]) {
        Some(b) => print_working(&rt, b),
        None => refuse(&rt),
    }
}
