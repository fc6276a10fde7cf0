// The gates or the bars of an answer as numbers in two lent arrays.
#![tactic(auto)]

ghost use Rattle.std.specs.Prelude.{◌≡◌};
ghost use Rattle.lists.specs.Written.{written};
ghost use Rattle.gate_numbers.specs.Results.{gate_start, gate_end, gates_used, GatesNumbers};

use c_results::CountResult;
use gates::{GATES_DRAWN, Gates};
use refusals::{Refusal, refusal_number};

// ---- the first places are written, the others stay
fn gates_used(gates: Gates) -> usize
    ensures { result ≡ gates_used gates }
{
    gates.count.min(GATES_DRAWN)
}

fn copy_gate_starts(gates: Gates, out: &mut [f32; GATES_DRAWN])
    ensures { out.new ≡ written (gate_start gates) (gates_used gates) out.old }
{
    for i in 0..gates_used(gates) {
        out[i] = gates.places[i].start;
    }
}

fn copy_gate_ends(gates: Gates, out: &mut [f32; GATES_DRAWN])
    ensures { out.new ≡ written (gate_end gates) (gates_used gates) out.old }
{
    for i in 0..gates_used(gates) {
        out[i] = gates.places[i].end;
    }
}

// The gates or the bars of an answer.
pub fn copy_gates(
    found: Result<Gates, Refusal>,
    start: &mut [f32; GATES_DRAWN],
    end: &mut [f32; GATES_DRAWN],
) -> CountResult
    ensures { GatesNumbers found start.old start.new end.old end.new result }
{
    match found {
        Ok(gates) => {
            copy_gate_starts(gates, start);
            copy_gate_ends(gates, end);
            CountResult {
                refusal: 0,
                count: gates_used(gates) as u32,
            }
        }
        Err(why) => CountResult {
            refusal: refusal_number(why),
            count: 0,
        },
    }
}
