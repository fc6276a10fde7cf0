// The height of an input, by way of a whole block: the bytes are put where the code reads them, and all others are 0.
#![tactic(auto)]

ghost use Rattle.std.specs.Prelude.{◌≡◌, ◌%◌, ◌^◌, length, set, replicate};
ghost use Rattle.std.specs.Float.{binary32};
ghost use Rattle.std.specs.Float.Ieee.{to_bits};
ghost use Rattle.code_bytes.specs.Bytes.{bytes_of};
ghost use Rattle.inputs.specs.Inputs.{with_bytes, with_input, height_given, input_height, part_bits, lfo_input};

use code_bytes::bytes_of;
use codes::{Code, code_read};
use curve::Height;
use float_bits::{float_of, low_byte, word_of};
use refusals::Refusal;
use strip::sample_position;
use trials::Input;

// ---- the block of an input
fn put_at(program: &mut [u8], at: u8, b: u8)
    ensures { program.new ≡ set program.old at b }
{
    let i = at as usize;
    if i < program.len() {
        program[i] = b;
    }
}

// A number's bytes at their places, from the last to the first.
fn put_places(program: &mut [u8], places: &[u8], bytes: u64)
    ensures { program.new ≡ with_bytes places.now bytes program.old }
{
    let mut rest = bytes;
    for i in (0..places.len()).rev() {
        put_at(program, places[i], low_byte(rest));
        rest /= 256;
    }
}

fn put_bytes(program: &mut [u8], code: Code, bytes: u64)
    ensures { program.new ≡ with_bytes (bytes_of code) bytes program.old }
{
    let read = bytes_of(code);
    let numbers = read.at;
    put_places(program, &numbers[..read.count], bytes);
}

// A code that is not known reads no byte.
#[tactic(auto, unfolding(crate::specs::Inputs::with_bytes, crate::specs::Inputs::places_of, crate::specs::Inputs::with_input))]
fn put_input(program: &mut [u8], input: Input)
    ensures { program.new ≡ with_input input program.old }
{
    if let Some(code) = code_read(input.code) {
        put_bytes(program, code, input.bytes);
    }
}

fn zeros() -> [u8; 242]
    ensures { result ≡ replicate 242 0 }
{
    [0; 242]
}

// ---- its height
// Where the input is refused the height is a NaN.
fn of_answer(answer: Result<Height, Refusal>) -> Height
    ensures { result ≡ height_given answer }
{
    match answer {
        Ok(h) => h,
        Err(_) => Height {
            height: 0.0 / 0.0,
            steps: 0,
        },
    }
}

pub fn input_height(input: Input) -> Height
    ensures { result ≡ input_height input }
{
    let mut program = zeros();
    put_input(&mut program, input);
    of_answer(block::height(&program, input.code, float_of(input.position)))
}

// ---- inputs
// The bits of a position, part i of the whole.
pub fn part_bits(i: u16, whole: u16) -> u32
    ensures { result ≡ part_bits i whole }
{
    word_of(sample_position(i, whole))
}

// LFO 1, with no key sync.
pub fn lfo_input(shape: u32, slew: u32, position: u32) -> Input
    ensures { result ≡ lfo_input shape slew position }
{
    Input {
        code: 3,
        bytes: shape as u64 * 0x1_0000 + slew as u64 * 0x100,
        position,
    }
}
