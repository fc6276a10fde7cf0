// The arpeggiator's gates.
#![tactic(auto)]

ghost use Rattle.std.specs.Prelude.{◌≡◌};
ghost use Rattle.gates.specs.Gates.{gate_of, gates_of};

use settings::byte;

// The steps of the arpeggiator that are drawn.
pub const GATES_DRAWN: usize = 4;

// A gate opens at its start and closes at its end, both in steps.
#[derive(Clone, Copy)]
pub struct Gate {
    pub start: f32,
    pub end: f32,
}

// The first `count` places are gates: all four, or none.
#[derive(Clone, Copy)]
pub struct Gates {
    pub places: [Gate; GATES_DRAWN],
    pub count: usize,
}

// The gate of a step.
fn gate_at(step: u8, time: u8) -> Gate
    ensures { result ≡ gate_of time step }
{
    let start = step as f32;
    Gate {
        start,
        end: start + byte(time),
    }
}

// The gates that the arpeggiator opens, a step each; a gate time of 0 is no note.
pub fn arpeggiator_gates(time: u8) -> Gates
    ensures { result ≡ gates_of time }
{
    if time == 0 {
        let closed = Gate {
            start: 0.0,
            end: 0.0,
        };
        return Gates {
            places: [closed; GATES_DRAWN],
            count: 0,
        };
    }
    Gates {
        places: [
            gate_at(0, time),
            gate_at(1, time),
            gate_at(2, time),
            gate_at(3, time),
        ],
        count: GATES_DRAWN,
    }
}
