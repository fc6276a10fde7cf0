// What the crates answer to a letter of the list and a number's place in its line: a word, or none where there is none to be had.
use curve::Height;
use float_bits::{flag, float_of, low_byte, word_of};
use gates::{GATES_DRAWN, Gates};
use generator::{Generator, Scale, Shape, scale_number, scale_value};
use marks::{MAX_MARKS, Marks, kind_number};
use settings::{Envelope, Filter, Lfo, LfoShape, Oscillator, Pass};
use shape_heights::shape_height;
use taps::Taps;

pub fn of_float(x: f32) -> Option<u32> {
    Some(word_of(x))
}

pub fn of_flag(b: bool) -> Option<u32> {
    Some(flag(b))
}

// ---- settings, in the order of their declarations
fn envelope_setting(e: Envelope, i: u32) -> Option<u32> {
    match i {
        0 => of_float(e.first),
        1 => of_float(e.second),
        2 => of_float(e.third),
        3 => of_float(e.sustain),
        4 => of_float(e.sustain_end),
        5 => of_float(e.attack_bend),
        6 => of_float(e.decay_bend),
        7 => of_float(e.release_bend),
        _ => None,
    }
}

fn shape_number(shape: LfoShape) -> u32 {
    match shape {
        LfoShape::Sine => 0,
        LfoShape::Triangle => 1,
        LfoShape::Square => 2,
        LfoShape::RampUp => 3,
        LfoShape::RampDown => 4,
        LfoShape::SampleAndHold => 5,
        LfoShape::SampleAndGlide => 6,
    }
}

fn lfo_setting(l: Lfo, i: u32) -> Option<u32> {
    let shape = l.shape;
    match i {
        0 => Some(shape_number(shape)),
        1 => of_float(l.turns),
        2 => of_float(l.slew),
        3 => of_flag(l.unipolar),
        4 => of_flag(l.synced),
        _ => None,
    }
}

fn pass_number(pass: Pass) -> u32 {
    match pass {
        Pass::Low => 0,
        Pass::High => 1,
    }
}

fn filter_setting(f: Filter, i: u32) -> Option<u32> {
    let pass = f.pass;
    match i {
        0 => of_float(f.slope),
        1 => of_float(f.resonance),
        2 => of_float(f.span),
        3 => Some(pass_number(pass)),
        _ => None,
    }
}

fn oscillator_setting(o: Oscillator, i: u32) -> Option<u32> {
    match i {
        0 => of_flag(o.saw),
        1 => of_flag(o.pulse),
        2 => of_float(o.width),
        3 => of_float(o.sweep),
        4 => of_float(o.level),
        _ => None,
    }
}

// The one setting that there is.
fn only_setting(x: f32, i: u32) -> Option<u32> {
    if i == 0 {
        return of_float(x);
    }
    None
}

pub fn setting(shape: Shape, i: u32) -> Option<u32> {
    match shape {
        Shape::Envelope(e) => envelope_setting(e, i),
        Shape::Fade(f) => only_setting(f.end, i),
        Shape::Lfo(l) => lfo_setting(l, i),
        Shape::Filter(f) => filter_setting(f, i),
        Shape::Oscillator(o) => oscillator_setting(o, i),
        Shape::Noise(n) => only_setting(n.level, i),
    }
}

// ---- heights
// The height itself, then its steps: on a line of the list, the position stands before them.
pub fn height(h: Height, i: u32) -> Option<u32> {
    match i {
        1 => of_float(h.height),
        2 => Some(h.steps),
        _ => None,
    }
}

// ---- marks
fn mark_count(marks: Marks) -> Option<u32> {
    Some((marks.count % 256) as u32)
}

fn mark_at(marks: Marks, i: u32) -> Option<u32> {
    let n = i as usize;
    if n < marks.count && n < MAX_MARKS {
        return of_float(marks.places[n].at);
    }
    None
}

fn mark_kind(marks: Marks, i: u32) -> Option<u32> {
    let n = i as usize;
    if n < marks.count && n < MAX_MARKS {
        return Some(kind_number(marks.places[n].kind) as u32);
    }
    None
}

// How many marks, the position of one, its kind.
pub fn of_marks(marks: Marks, letter: u8, i: u32) -> Option<u32> {
    match letter {
        b'N' => mark_count(marks),
        b'M' => mark_at(marks, i),
        b'K' => mark_kind(marks, i),
        _ => None,
    }
}

// ---- scale
pub fn scale(scale: Scale, i: u32) -> Option<u32> {
    match i {
        0 => Some(scale_number(scale)),
        1 => of_float(scale_value(scale)),
        _ => None,
    }
}

// ---- gates
fn gate_count(gates: Gates) -> Option<u32> {
    Some((gates.count % 256) as u32)
}

fn gate_start(gates: Gates, i: u32) -> Option<u32> {
    let n = i as usize;
    if n < gates.count && n < GATES_DRAWN {
        return of_float(gates.places[n].start);
    }
    None
}

fn gate_end(gates: Gates, i: u32) -> Option<u32> {
    let n = i as usize;
    if n < gates.count && n < GATES_DRAWN {
        return of_float(gates.places[n].end);
    }
    None
}

// How many gates, the start of one, its end.
pub fn of_gates(gates: Gates, letter: u8, i: u32) -> Option<u32> {
    match letter {
        b'N' => gate_count(gates),
        b'M' => gate_start(gates, i),
        b'E' => gate_end(gates, i),
        _ => None,
    }
}

// ---- taps
pub fn of_taps(taps: Taps, letter: u8, i: u32, position: u32) -> Option<u32> {
    match letter {
        b'H' => height(taps::taps_height(taps, float_of(position)), i),
        b'R' => of_float(tap_marks::taps_rest()),
        b'C' => scale(tap_marks::taps_scale(), i),
        b'A' => of_flag(tap_marks::taps_anchored()),
        _ => of_marks(tap_marks::taps_marks(taps), letter, i),
    }
}

// ---- a generator
pub fn of_generator(g: Generator, letter: u8, i: u32, position: u32) -> Option<u32> {
    let shape = g.shape;
    match letter {
        b'S' => setting(shape, i),
        b'H' => height(shape_height(shape, float_of(position)), i),
        b'R' => of_float(g.rest()),
        b'C' => scale(g.scale(), i),
        b'A' => of_flag(g.anchored()),
        _ => of_marks(g.marks(), letter, i),
    }
}

// ---- the generator of a code and the bytes that it reads, as one number whose lowest byte is the last
fn envelope_of(bytes: u64) -> Generator {
    builders::envelope(
        low_byte(bytes / 0x100_0000_0000_0000),
        low_byte(bytes / 0x1_0000_0000_0000),
        low_byte(bytes / 0x100_0000_0000),
        low_byte(bytes / 0x1_0000_0000),
        low_byte(bytes / 0x100_0000),
        low_byte(bytes / 0x1_0000),
        low_byte(bytes / 0x100),
        low_byte(bytes),
    )
}

// Shape, sync, slew.
fn lfo_of(bytes: u64) -> Generator {
    builders::lfo(
        low_byte(bytes / 0x1_0000),
        low_byte(bytes),
        low_byte(bytes / 0x100),
    )
}

fn lfo_unipolar_of(bytes: u64) -> Generator {
    builders::lfo_unipolar(
        low_byte(bytes / 0x1_0000),
        low_byte(bytes),
        low_byte(bytes / 0x100),
    )
}

// Source, pulse, saw, depth.
fn oscillator_one_of(bytes: u64) -> Generator {
    builders::oscillator_one(
        low_byte(bytes / 0x100_0000),
        low_byte(bytes / 0x1_0000),
        low_byte(bytes / 0x100),
        low_byte(bytes),
    )
}

// A code above 13 has the noise generator; the list has none.
pub fn built(code: u8, bytes: u64) -> Generator {
    match code {
        0..=2 => envelope_of(bytes),
        3 | 4 => lfo_of(bytes),
        5 | 6 => lfo_unipolar_of(bytes),
        7 | 8 => builders::lfo_fade(low_byte(bytes)),
        9 => builders::filter_response(low_byte(bytes / 0x100), low_byte(bytes)),
        10 => builders::high_pass_response(),
        11 => oscillator_one_of(bytes),
        12 => builders::oscillator_two(low_byte(bytes)),
        13..=255 => builders::noise(low_byte(bytes)),
    }
}
