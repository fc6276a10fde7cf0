// What the crates answer of a whole block and a code: which bytes of the block count is theirs to know.
use crate::replay::{GATES, Place};
use float_bits::{float_of, low_word};
use gates::{Gates, arpeggiator_gates};
use marks::{Marks, no_marks};
use replay_answers::{of_flag, of_float, of_gates, of_marks};
use replay_blocks::drawn_block;

fn setting(block: &[u8], code: u32, i: u32) -> Option<u32> {
    let shape = block_settings::settings(block, code).ok()?;
    replay_answers::setting(shape, i)
}

fn height(block: &[u8], code: u32, t: f32, i: u32) -> Option<u32> {
    let h = block::height(block, code, t).ok()?;
    replay_answers::height(h, i)
}

fn rest(block: &[u8], code: u32) -> Option<u32> {
    of_float(block_generator::rest(block, code).ok()?)
}

fn scale(block: &[u8], code: u32, i: u32) -> Option<u32> {
    let s = block_generator::scale(block, code).ok()?;
    replay_answers::scale(s, i)
}

fn anchored(block: &[u8], code: u32) -> Option<u32> {
    of_flag(block_generator::anchored(block, code).ok()?)
}

// What is refused has no marks, and no gates.
fn marks_of(block: &[u8], code: u32) -> Marks {
    block_marks::marks(block, code).unwrap_or(no_marks())
}

fn gates_of(block: &[u8]) -> Gates {
    block_gates::gates(block).unwrap_or(arpeggiator_gates(0))
}

fn code_answer(block: &[u8], code: u32, letter: u8, i: u32, position: u32) -> Option<u32> {
    match letter {
        b'S' => setting(block, code, i),
        b'H' => height(block, code, float_of(position), i),
        b'R' => rest(block, code),
        b'C' => scale(block, code, i),
        b'A' => anchored(block, code),
        _ => of_marks(marks_of(block, code), letter, i),
    }
}

pub fn answered(place: Place) -> Option<u32> {
    let block = drawn_block(place.seed, place.most);
    if place.code == GATES {
        return of_gates(gates_of(&block), place.letter, place.index);
    }
    code_answer(
        &block,
        low_word(place.code),
        place.letter,
        place.index,
        low_word(place.position),
    )
}
