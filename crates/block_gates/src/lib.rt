// The arpeggio's gates of a block, and its bars.
#![tactic(auto)]

ghost use Rattle.block_gates.specs.Answers.{gates_answer, bars_answer};
ghost use Rattle.block_gates.specs.Promises.{GatesAnswered};

use block::BLOCK;
use code_bytes::GATE_TIME;
use gates::{Gates, arpeggiator_gates};
use refusals::Refusal;

pub fn gates(block: &[u8]) -> Result<Gates, Refusal>
    ensures { GatesAnswered gates_answer block.now result }
{
    if block.len() != BLOCK {
        return Err(Refusal::Block);
    }
    Ok(arpeggiator_gates(block[GATE_TIME]))
}

// Each gate is a bar of its own.
pub fn bars(block: &[u8]) -> Result<Gates, Refusal>
    ensures { GatesAnswered bars_answer block.now result }
{
    gates(block)
}
