// The trials of both edges: heights that are known beforehand, and positions beyond the edges.
#![tactic(auto)]

ghost use Rattle.std.specs.Prelude.{◌≡◌, get_or};
ghost use Rattle.edge_trials.specs.Edges.{edge_trial, no_edges, table, side_bits, side_height, known_at, known_trial, edge_bits, pattern_of, beyond_input, beyond_trial};

use float_bits::agrees;
use inputs::input_height;
use strip::sample_position;
use trials::{Input, Trial, no_trial};

// The heights at the left edge and at the right one, in hundredths, of bytes that the codes from one up to another read alike.
#[derive(Clone, Copy)]
pub struct Edges {
    pub from: u32,
    pub to: u32,
    pub bytes: u64,
    pub left: u16,
    pub right: u16,
}

// The bits of 0 and of 1.
const LEFT: u32 = 0;

const RIGHT: u32 = 0x3f80_0000;

// ---- heights that are known beforehand
// The fields of an entry, in their order.
const TABLE: [(u32, u32, u64, u16, u16); 20] = [
    // envelopes: full times, which rise from 0 and fall to it; times 0 and a full sustain, with sustain curves 0 and 255
    (0, 3, 0xffff_ffff_8080_8080, 0, 0),
    (0, 3, 0x0000_ff00_8080_0080, 100, 0),
    (0, 3, 0x0000_ff00_8080_ff80, 100, 100),
    // the seven shapes
    (3, 7, 0, 50, 50),
    (3, 7, 0x1_0000, 0, 0),
    (3, 7, 0x2_0000, 100, 0),
    (3, 7, 0x3_0000, 0, 100),
    (3, 7, 0x4_0000, 100, 0),
    (3, 7, 0x5_0000, 72, 31),
    (3, 7, 0x6_0000, 86, 63),
    // fades of no time, and of full time
    (7, 9, 0, 100, 100),
    (7, 9, 0xff, 0, 100),
    // a low-pass with no resonance: 0 decibels, and less than -48
    (9, 10, 0, 80, 0),
    // oscillator 1 with no wave, the saw, the pulse, and both
    (11, 12, 0, 50, 50),
    (11, 12, 0x100, 0, 100),
    (11, 12, 0x1_0000, 100, 0),
    (11, 12, 0x1_0100, 50, 50),
    // oscillator 2 and noise, level 0; oscillator 2, level 255
    (12, 14, 0, 50, 50),
    (12, 13, 0xff, 100, 0),
    // oscillator 1's pulse at its full width
    (11, 12, 0x1_00ff, 100, 0),
];

#[tactic(auto, unfolding(crate::specs::Edges::table))]
fn entry(k: u16) -> Edges
    ensures { result ≡ get_or table k no_edges }
{
    let (from, to, bytes, left, right) = TABLE.get(k as usize).copied().unwrap_or((0, 0, 0, 0, 0));
    Edges {
        from,
        to,
        bytes,
        left,
        right,
    }
}

// An input's height agrees with the one that is expected.
#[tactic(auto, unfolding(crate::specs::Edges::edge_trial))]
fn edge_trial(input: Input, expected: f32) -> Trial
    ensures { result ≡ edge_trial input expected }
{
    let h = input_height(input);
    Trial {
        right: agrees(h.height, expected),
        values: 1,
        input,
    }
}

// A side is a digit of the trial's number, as in the definition: an enum would be made of it and taken apart at once.
fn side_bits(side: u16) -> u32
    ensures { result ≡ side_bits side }
{
    if side == 0 {
        return LEFT;
    }
    RIGHT
}

#[tactic(auto, unfolding(crate::specs::Edges::side_height))]
fn side_height(e: Edges, side: u16) -> f32
    ensures { result ≡ side_height e side }
{
    if side == 0 {
        return sample_position(e.left, 100);
    }
    sample_position(e.right, 100)
}

#[tactic(auto, unfolding(crate::specs::Edges::known_at))]
fn known_at(e: Edges, code: u32, side: u16) -> Trial
    ensures { result ≡ known_at e code side }
{
    if code < e.from || e.to <= code {
        return no_trial();
    }
    let input = Input {
        code,
        bytes: e.bytes,
        position: side_bits(side),
    };
    edge_trial(input, side_height(e, side))
}

// Each entry, code and side.
#[tactic(auto, unfolding(crate::specs::Edges::known_trial))]
pub fn known_trial(n: u16) -> Trial
    ensures { result ≡ known_trial n }
{
    known_at(entry(n / 28), (n / 2 % 14) as u32, n % 2)
}

// ---- positions beyond the edges
// -0, the number next below it, -1, -infinity and a NaN are drawn as position 0; the number next to 1, 2 and infinity as position 1.
const BEYOND: [u32; 8] = [
    0x8000_0000,
    0x8000_0001,
    0xbf80_0000,
    0xff80_0000,
    0x7fc0_0000,
    0x3f80_0001,
    0x4000_0000,
    0x7f80_0000,
];

fn edge_bits(k: u16) -> u32
    ensures { result ≡ edge_bits k }
{
    if k < 5 {
        return LEFT;
    }
    RIGHT
}

// Two patterns of bytes. k is a digit of the trial's number, as a side is.
fn pattern(k: u16) -> u64
    ensures { result ≡ pattern_of k }
{
    if k == 0 {
        return 0;
    }
    0x5555_5555_5555_5555
}

#[tactic(auto, unfolding(crate::specs::Edges::beyond_input))]
fn beyond_input(n: u16, position: u32) -> Input
    ensures { result ≡ beyond_input n position }
{
    Input {
        code: (n / 16) as u32,
        bytes: pattern(n / 8 % 2),
        position,
    }
}

// Each code, pattern and position has the edge's height.
#[tactic(auto, unfolding(crate::specs::Edges::beyond, crate::specs::Edges::beyond_trial))]
pub fn beyond_trial(n: u16) -> Trial
    ensures { result ≡ beyond_trial n }
{
    let k = n % 8;
    let h = input_height(beyond_input(n, edge_bits(k)));
    edge_trial(beyond_input(n, BEYOND[k as usize]), h.height)
}
