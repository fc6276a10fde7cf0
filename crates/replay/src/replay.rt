// The list, a line after the other.
use crate::{report, whole};
use float_bits::{agreeing, float_of, low_byte, low_word};
use gates::arpeggiator_gates;
use number_lines::{Line, MOST, end_line, is_blank, no_line, read_byte};
use replay_answers::{built, of_gates, of_generator, of_taps};
use std::io;
use taps::{MAX_TAPS, Taps};

// How many words of each kind were compared, how many of all differ, and how many the program could not answer.
#[derive(Clone, Copy)]
pub struct Tally {
    pub settings: u32,
    pub heights: u32,
    pub steps: u32,
    pub marks: u32,
    pub others: u32,
    pub gates: u32,
    pub taps: u32,
    pub blocks: u32,
    pub different: u32,
    pub unanswered: u32,
}

// What a number of the list is about.
#[derive(Clone, Copy)]
pub struct Place {
    // The generator's code and bytes, or the taps.
    pub code: u64,
    pub bytes: u64,
    pub taps: Taps,
    // Whether the generator is that of the code and a whole block, and the block's seed and its largest byte.
    pub whole: bool,
    pub seed: u32,
    pub most: u8,
    // The line's letter, and how many of the line's numbers stand before this one.
    pub letter: u8,
    pub index: u32,
    // The position, where the line has one.
    pub position: u64,
}

#[derive(Clone, Copy)]
pub struct Reading {
    pub place: Place,
    pub tally: Tally,
}

// The code that stands for the gates.
pub const GATES: u64 = 0xa0;

// The code of what a line T begins.
const TAPS: u64 = 0xb0;

// One more. A list holds fewer than 2^32 of anything.
fn more(n: u32) -> u32 {
    n.wrapping_add(1)
}

// What the crates answer there.
fn answered(place: Place) -> Option<u32> {
    if place.whole {
        return whole::answered(place);
    }
    let letter = place.letter;
    let i = place.index;
    if place.code == GATES {
        return of_gates(arpeggiator_gates(low_byte(place.bytes)), letter, i);
    }
    let position = low_word(place.position);
    if place.code == TAPS {
        return of_taps(place.taps, letter, i, position);
    }
    of_generator(
        built(low_byte(place.code), place.bytes),
        letter,
        i,
        position,
    )
}

fn counted(tally: Tally, place: Place) -> Tally {
    let mut next = tally;
    if place.whole {
        next.blocks = more(next.blocks);
        return next;
    }
    if place.code == GATES {
        next.gates = more(next.gates);
        return next;
    }
    if place.code == TAPS {
        next.taps = more(next.taps);
        return next;
    }
    if place.letter == b'H' && place.index == 2 {
        next.steps = more(next.steps);
        return next;
    }
    let letter = place.letter;
    match letter {
        b'S' => next.settings = more(next.settings),
        b'H' => next.heights = more(next.heights),
        b'N' | b'M' | b'K' => next.marks = more(next.marks),
        _ => next.others = more(next.others),
    }
    next
}

// The tally after a comparison. The computed word is printed and, where the two differ, the expected one.
fn compared(to: &impl Print, tally: Tally, place: Place, expected: u32) -> io::Result<Tally> {
    let mut next = counted(tally, place);
    let Some(computed) = answered(place) else {
        report::print_unanswered(to, expected)?;
        next.unanswered = more(next.unanswered);
        return Ok(next);
    };
    report::print_number(to, computed as u64)?;
    if !agreeing(computed, expected) {
        report::print_expected(to, expected)?;
        next.different = more(next.different);
    }
    Ok(next)
}

// The taps after a number of their line: four positions, four heights, and how many are used.
fn tapped(taps: Taps, index: u32, value: u64) -> Taps {
    let mut next = taps;
    let n = index as usize;
    if n < MAX_TAPS {
        next.at[n] = float_of(low_word(value));
        return next;
    }
    if n < 2 * MAX_TAPS {
        next.tall[n - MAX_TAPS] = float_of(low_word(value));
        return next;
    }
    next.used = value as usize;
    next
}

// The place after a number of a line that says what the others are about: G, T, B or P.
fn told(place: Place, value: u64) -> Place {
    let mut next = place;
    let letter = place.letter;
    let index = place.index;
    match letter {
        b'G' => {
            next.whole = false;
            if index == 0 {
                next.code = value;
            } else {
                next.bytes = value;
            }
        }
        b'T' => {
            next.whole = false;
            next.code = TAPS;
            let taps = tapped(place.taps, index, value);
            next.taps = taps;
        }
        b'B' => {
            if index == 0 {
                next.seed = low_word(value);
            } else {
                next.most = low_byte(value);
            }
        }
        _ => {
            next.whole = true;
            next.code = value;
        }
    }
    next
}

// Whether a number says what the others are about: each of G, T, B and P does, and the first of H.
fn tells(place: Place) -> bool {
    let letter = place.letter;
    match letter {
        b'G' | b'T' | b'B' | b'P' => true,
        _ => false,
    }
}

impl Reading {
    fn start() -> Reading {
        let taps = Taps {
            at: [0.0; MAX_TAPS],
            tall: [0.0; MAX_TAPS],
            used: 0,
        };
        let place = Place {
            code: 0,
            bytes: 0,
            taps,
            whole: false,
            seed: 0,
            most: 0,
            letter: 0,
            index: 0,
            position: 0,
        };
        let tally = Tally {
            settings: 0,
            heights: 0,
            steps: 0,
            marks: 0,
            others: 0,
            gates: 0,
            taps: 0,
            blocks: 0,
            different: 0,
            unanswered: 0,
        };
        Reading { place, tally }
    }

    // After a number.
    fn number(self, to: &impl Print, value: u64) -> io::Result<Reading> {
        let mut next = self;
        let mut place = self.place;
        if tells(place) {
            report::print_number(to, value)?;
            place = told(place, value);
        } else if place.letter == b'H' && place.index == 0 {
            report::print_number(to, value)?;
            place.position = value;
        } else {
            next.tally = compared(to, self.tally, place, low_word(value))?;
        }
        place.index = more(place.index);
        next.place = place;
        Ok(next)
    }

    // After a line that is wrong, which the list has not: it counts as one number that is not answered.
    fn wrong_line(self, to: &impl Print) -> io::Result<Reading> {
        report::print_wrong_line(to)?;
        let mut next = self;
        let mut tally = self.tally;
        tally.unanswered = more(tally.unanswered);
        next.tally = tally;
        Ok(next)
    }

    // After a line.
    fn line(self, to: &impl Print, line: Line) -> io::Result<Reading> {
        if is_blank(line) {
            return Ok(self);
        }
        if line.wrong {
            return self.wrong_line(to);
        }
        report::print_byte(to, line.letter.unwrap_or(0))?;
        let mut next = self;
        let mut place = self.place;
        place.letter = line.letter.unwrap_or(0);
        place.index = 0;
        place.position = 0;
        next.place = place;
        let count = line.count.min(MOST);
        for &value in &line.numbers[..count] {
            next = next.number(to, value)?;
        }
        report::print_byte(to, b'\n')?;
        Ok(next)
    }
}

// A last line with no end is a line too.
pub fn replay(to: &impl Print, list: &[u8]) -> io::Result<Tally> {
    let mut state = Reading::start();
    let mut line = no_line();
    for &b in list {
        if b == b'\n' {
            state = state.line(to, end_line(line))?;
            line = no_line();
        } else {
            line = read_byte(line, b);
        }
    }
    state = state.line(to, end_line(line))?;
    Ok(state.tally)
}
