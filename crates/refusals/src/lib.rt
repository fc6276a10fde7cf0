// Why an input is refused, and the number of each reason.
#![tactic(auto)]

ghost use Rattle.std.specs.Prelude.{◌≡◌};
ghost use Rattle.refusals.specs.Refusals.{refusal_number, answer_refusal};

// The block's length, the code, the strip's length, a level that is none, a number of turns other than 6 or 8.
#[derive(Clone, Copy, PartialEq, Eq)]
pub enum Refusal {
    Block,
    Code,
    Strip,
    Level,
    Turns,
}

pub fn refusal_number(r: Refusal) -> u32
    ensures { result ≡ refusal_number r }
{
    match r {
        Refusal::Block => 1,
        Refusal::Code => 2,
        Refusal::Strip => 3,
        Refusal::Level => 4,
        Refusal::Turns => 5,
    }
}

// The number of an answer's refusal, 0 for none.
pub fn answer_refusal<T: Drop>(answer: Result<T, Refusal>) -> u32
    ensures { result ≡ answer_refusal answer }
{
    match answer {
        Ok(_) => 0,
        Err(why) => refusal_number(why),
    }
}
