// A row of the checklist: each line of the list of exact heights.
#![tactic(auto)]

ghost use Rattle.std.specs.Prelude.{◌≡◌};
ghost use Rattle.exact_heights.specs.Exact.{stepped, exact_row};

use exact_trials::line_trial;
use number_lines::{Line, end_line, no_line, read_byte};
use trials::{Row, note, start};

// The row of the lines so far, and the line that is being read.
#[derive(Clone, Copy)]
pub struct Reading {
    pub row: Row,
    pub line: Line,
}

#[tactic(auto, unfolding(crate::specs::Exact::stepped))]
fn step(reading: Reading, b: u8) -> Reading
    ensures { result ≡ stepped reading b }
{
    let Reading { row, line } = reading;
    if b == b'\n' {
        return Reading {
            row: note(row, line_trial(end_line(line))),
            line: no_line(),
        };
    }
    Reading {
        row,
        line: read_byte(line, b),
    }
}

// A last line with no end is a line too.
pub fn exact_row(list: &[u8]) -> Row
    ensures { result ≡ exact_row list.now }
{
    let mut reading = Reading {
        row: start(),
        line: no_line(),
    };
    for b in list {
        reading = step(reading, *b);
    }
    note(reading.row, line_trial(end_line(reading.line)))
}
