// A row of trials: how many values were compared, how many trials are not right, and the first inputs of those.
#![tactic(auto)]

ghost use Rattle.std.specs.Prelude.{◌≡◌, []};
ghost use Rattle.trials.specs.Trials.{no_input, nothing, row_of, passes_of};
ghost use Rattle.trials.specs.Noted.{noted_of};

// A height that is asked for: the generator's code, the bytes that it reads as one number, and the position's bits.
#[derive(Clone, Copy)]
pub struct Input {
    pub code: u32,
    pub bytes: u64,
    pub position: u32,
}

// Whether a trial is right, how many values it compares, and the input that stands for them.
#[derive(Clone, Copy)]
pub struct Trial {
    pub right: bool,
    pub values: u32,
    pub input: Input,
}

// How many inputs of trials that are not right are kept.
pub const KEPT: usize = 3;

// How many values were compared, how many trials are not right, and the inputs of the first of those.
#[derive(Clone, Copy)]
pub struct Row {
    pub tried: u32,
    pub failed: u32,
    pub inputs: [Input; KEPT],
}

fn no_input() -> Input
    ensures { result ≡ no_input }
{
    Input {
        code: 0,
        bytes: 0,
        position: 0,
    }
}

// A trial that compares nothing.
pub fn no_trial() -> Trial
    ensures { result ≡ nothing }
{
    Trial {
        right: true,
        values: 0,
        input: no_input(),
    }
}

// The row of no trials.
#[tactic(auto, unfolding(crate::specs::Trials::row_by, crate::specs::Trials::row_of, crate::specs::Trials::values_of, crate::specs::Trials::failing_of, lists::specs::Padded::padded))]
pub fn start() -> Row
    ensures { result ≡ row_of [] }
{
    Row {
        tried: 0,
        failed: 0,
        inputs: [no_input(); KEPT],
    }
}

// The row after one trial more.
#[tactic(auto, unfolding(crate::specs::Noted::kept_with, crate::specs::Noted::noted_by, crate::specs::Noted::noted_of))]
pub fn note(row: Row, trial: Trial) -> Row
    ensures { result ≡ noted_of row trial }
{
    let mut next = row;
    next.tried = row.tried.saturating_add(trial.values);
    if trial.right {
        return next;
    }
    let at = row.failed as usize;
    next.failed = row.failed.saturating_add(1);
    if at < KEPT {
        next.inputs[at] = trial.input;
    }
    next
}

// Every trial is right, and something was compared.
#[tactic(auto, unfolding(crate::specs::Trials::passes_of))]
pub fn passes(row: Row) -> bool
    ensures { result ≡ passes_of row }
{
    row.failed == 0 && 0 < row.tried
}
