// Four rows of the checklist: the empty program, every shape byte, both edges, and slew at 1 and at 255. A row's trials are numbered; what each compares is a function of its
// number.
#![tactic(auto)]

mod empty;

ghost use Rattle.std.specs.Prelude.{◌≡◌, ℕ};
ghost use Rattle.trials.specs.declared.Trial.{Trial};
ghost use Rattle.trials.specs.Trials.{row_of, numbered};
ghost use Rattle.trials.specs.Noted.{noted_all};
ghost use Rattle.checklist_rows.specs.Rows.{GivesBelow, empty_row, shapes_row, edges_row, slew_row};

use edge_trials::{beyond_trial, known_trial};
use empty::empty_trial;
use shape_trials::{named_trial, unnamed_trial};
use slew_trials::slew_trial;
use trials::{Row, Trial, note, start};

// The row after the first trials of some numbered ones.
fn note_trials<F: Fn(u16) -> Trial>(row: Row, trial: F, count: u16) -> Row
    requires { F.IsAlwaysCallable trial }
    ensures { (f : ℕ → Trial) → GivesBelow (F.post trial) f count → result ≡ noted_all row (numbered f count) }
{
    let mut next = row;
    for n in 0..count {
        next = note(next, trial(n));
    }
    next
}

pub fn empty_program() -> Row
    ensures { result ≡ empty_row }
{
    note_trials(start(), empty_trial, 14350)
}

pub fn every_shape_byte() -> Row
    ensures { result ≡ shapes_row }
{
    note_trials(note_trials(start(), unnamed_trial, 249), named_trial, 49)
}

pub fn both_edges() -> Row
    ensures { result ≡ edges_row }
{
    note_trials(note_trials(start(), known_trial, 560), beyond_trial, 224)
}

pub fn both_slews() -> Row
    ensures { result ≡ slew_row }
{
    note_trials(start(), slew_trial, 910)
}
