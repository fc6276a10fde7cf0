// The gates and the bars for C callers: what crate block_gates answers, as numbers in two lent arrays.
#![tactic(auto)]

ghost use Rattle.block_gates.specs.Answers.{gates_answer, bars_answer};
ghost use Rattle.block_gates.specs.Promises.{GatesAnswered};
ghost use Rattle.c_results.specs.Promises.{Returned};
ghost use Rattle.gate_numbers.specs.Results.{GatesNumbers};

use c_results::CountResult;
use gate_numbers::copy_gates;
use gates::GATES_DRAWN;

pub fn gates(
    block: &[u8],
    start: &mut [f32; GATES_DRAWN],
    end: &mut [f32; GATES_DRAWN],
) -> CountResult
    ensures { Returned (λ a. GatesNumbers a start.old start.new end.old end.new result) (GatesAnswered gates_answer block.now) }
{
    copy_gates(block_gates::gates(block), start, end)
}

pub fn bars(
    block: &[u8],
    start: &mut [f32; GATES_DRAWN],
    end: &mut [f32; GATES_DRAWN],
) -> CountResult
    ensures { Returned (λ a. GatesNumbers a start.old start.new end.old end.new result) (GatesAnswered bars_answer block.now) }
{
    copy_gates(block_gates::bars(block), start, end)
}
