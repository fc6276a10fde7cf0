// Prints a curve byte for a wanted end: the arguments are a sustain byte and the wanted level, in decimal. Of anything else it prints `refused`.
#![tactic(auto)]

use curve_finder::curve_for_end;
use curve_lines::put_curve;
use decimal_reading::read_number;
use level_reading::read_level;
use program_input::argument;
use std::env::Env;
use std::io;
use text::Writer;

fn refuse(to: &impl Print) -> io::Result<()> {
    to.write_all(b"refused\n")
}

fn print_curve(to: &impl Print, sustain: u8, wanted: f32) -> io::Result<()> {
    let mut text = [0u8; 128];
    let mut page = Writer::new(&mut text);
    put_curve(&mut page, sustain, curve_for_end(sustain, wanted));
    match page.whole() {
        Some(text) => to.write_all(text),
        None => Ok(()),
    }
}

// The level is the second argument.
fn search(rt: &(impl Env + Print), sustain: u8) -> io::Result<()> {
    let mut text = [0u8; 256];
    let n = argument(rt, 2, &mut text);
    match read_level(&text[..n]) {
        Some(wanted) => print_curve(rt, sustain, wanted),
        None => refuse(rt),
    }
}

fn main(rt: HostRuntime) -> io::Result<()> {
    let mut text = [0u8; 16];
    let n = argument(&rt, 1, &mut text);
    match read_number(&text[..n]) {
        Some(sustain) if sustain < 256 => search(&rt, sustain as u8),
        _ => refuse(&rt),
    }
}
