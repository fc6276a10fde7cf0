// What differs between two programs: a line for each generator and for the arpeggio's gates, with a line for each of their bytes that is not the same; then the other bytes.
// The turns are a number, as a caller gives them: what is promised of a number that is none needs them so.
#![tactic(auto)]

ghost use Rattle.std.specs.Prelude.{◌≡◌, ◌≤◌, length};
ghost use Rattle.text.specs.Text.{Puts};
ghost use Rattle.codes.specs.Codes.{code_of};
ghost use Rattle.refusals.specs.Refusals.{accepted, answer_refusal, check_block, check_turns};
ghost use Rattle.code_bytes.specs.Bytes.{byte_at};
ghost use Rattle.code_shapes.specs.Shapes.{shape_of};
ghost use Rattle.turns.specs.Turns.{turned_of};
ghost use Rattle.largest_difference.specs.Largest.{largest_of, compared_samples};
ghost use Rattle.comparison.specs.Differences.{curve_of, largest_text, generator_text, code_text, codes_text, gate_text, code_count, codes_count, gate_count, names_text, counts_text, programs_text, differences_text};

use code_bytes::GATE_TIME;
use code_shapes::shape_at;
use codes::{CODES, Code, code_from, code_number};
use compared_blocks::Blocks;
use comparison_bytes::{put_changes, put_code_changes, same, same_bytes};
use labels::put_title;
use largest_difference::{Largest, SAMPLES, find_largest};
use nine_places::put_nine_places;
use numerals::put_decimal;
use program_name::put_name_in_line;
use refusals::Refusal;
use settings::SampledTurns;
use shape_strip::fill_once;
use strip::sample_position;
use text::{Writer, put};
use turns::{turned, turns_read};
use undrawn_bytes::put_undrawn_part;
use undrawn_count::count_undrawn;

// The byte of the gates.
const GATE: [u8; 1] = [GATE_TIME as u8];

// The number of the last sample at which two curves are held against each other.
const LAST: u16 = (SAMPLES - 1) as u16;

// ---- the lines of a generator
fn put_largest(out: &mut Writer, largest: Largest)
    ensures { Puts out.old (largest_text largest) out.new }
{
    put(out, b"different  largest difference ");
    put_nine_places(out, largest.size);
    put(out, b" at ");
    put_nine_places(out, sample_position(largest.index, LAST));
    put(out, b"\n");
}

// How far apart the curves of a code are: both strips, an LFO's by one walk along it, and where they are farthest apart.
fn largest_of(sampled: SampledTurns, blocks: Blocks, code: Code) -> Largest
    ensures { result ≡ largest_of (curve_of (turned_of sampled (shape_of code (byte_at blocks.entry.old.now)))) (curve_of (turned_of sampled (shape_of code (byte_at blocks.entry.new.now)))) compared_samples }
{
    let Blocks { old, new } = blocks;
    let mut old_curve = [0.0f32; SAMPLES];
    let mut new_curve = [0.0f32; SAMPLES];
    fill_once(turned(sampled, shape_at(old, code)), &mut old_curve);
    fill_once(turned(sampled, shape_at(new, code)), &mut new_curve);
    find_largest(&old_curve, &new_curve)
}

fn put_code(out: &mut Writer, sampled: SampledTurns, blocks: Blocks, code: Code)
    ensures { Puts out.old (generator_text sampled code (byte_at blocks.entry.old.now) (byte_at blocks.entry.new.now)) out.new }
{
    let Blocks { old, new } = blocks;
    put_title(out, code_number(code));
    if same(old, new, code) {
        put(out, b"same\n");
    } else {
        put_largest(out, largest_of(sampled, blocks, code));
        put_code_changes(out, old, new, code);
    }
}

// The lines of the generator of a code's number.
#[tactic(auto, using(text::proofs::Writing::puts_none), unfolding(crate::specs::Differences::code_text))]
fn put_numbered(out: &mut Writer, sampled: SampledTurns, blocks: Blocks, number: u8)
    ensures { Puts out.old (code_text sampled (code_of number) (byte_at blocks.entry.old.now) (byte_at blocks.entry.new.now)) out.new }
{
    if let Some(code) = code_from(number) {
        put_code(out, sampled, blocks, code);
    }
}

fn put_codes(out: &mut Writer, sampled: SampledTurns, blocks: Blocks)
    ensures { Puts out.old (codes_text sampled 14 (byte_at blocks.entry.old.now) (byte_at blocks.entry.new.now)) out.new }
{
    for number in 0..CODES {
        put_numbered(out, sampled, blocks, number);
    }
}

// ---- the gates
fn put_gate(out: &mut Writer, blocks: Blocks)
    ensures { Puts out.old (gate_text (byte_at blocks.entry.old.now) (byte_at blocks.entry.new.now)) out.new }
{
    let Blocks { old, new } = blocks;
    put_title(out, 14);
    if same_bytes(old, new, &GATE) {
        put(out, b"same\n");
    } else {
        put(out, b"different\n");
        put_changes(out, old, new, &GATE);
    }
}

// ---- how many differ
#[tactic(auto, unfolding(crate::specs::Differences::code_count))]
fn count_code(blocks: Blocks, number: u8) -> u64
    ensures { (result ≡ code_count (code_of number) (byte_at blocks.entry.old.now) (byte_at blocks.entry.new.now)) × (result ≤ 1) }
{
    let Blocks { old, new } = blocks;
    match code_from(number) {
        Some(code) => u64::from(!same(old, new, code)),
        None => 0,
    }
}

#[tactic(auto, using(crate::proofs::Steps::count_more), unfolding(crate::specs::Differences::codes_count))]
fn count_codes(blocks: Blocks) -> u64
    ensures { (result ≡ codes_count 14 (byte_at blocks.entry.old.now) (byte_at blocks.entry.new.now)) × (result ≤ 14) }
{
    let mut count: u64 = 0;
    for number in 0..CODES {
        count += count_code(blocks, number);
    }
    count
}

#[tactic(auto, unfolding(crate::specs::Differences::gate_count))]
fn count_gate(blocks: Blocks) -> u64
    ensures { (result ≡ gate_count (byte_at blocks.entry.old.now) (byte_at blocks.entry.new.now)) × (result ≤ 1) }
{
    let Blocks { old, new } = blocks;
    u64::from(!same_bytes(old, new, &GATE))
}

// ---- all of it
fn put_names(out: &mut Writer, blocks: Blocks)
    ensures { Puts out.old (names_text blocks.entry.old.now blocks.entry.new.now) out.new }
{
    let Blocks { old, new } = blocks;
    put(out, b"old  ");
    put_name_in_line(out, old, b"(no name)");
    put(out, b"\nnew  ");
    put_name_in_line(out, new, b"(no name)");
    put(out, b"\n");
}

fn put_counts(out: &mut Writer, blocks: Blocks)
    ensures { Puts out.old (counts_text (byte_at blocks.entry.old.now) (byte_at blocks.entry.new.now)) out.new }
{
    put_decimal(out, count_codes(blocks) + count_gate(blocks));
    put(out, b" of 15 differ, and of the bytes that no curve draws ");
    put_decimal(out, count_undrawn(blocks));
    put(out, b"\n");
}

fn put_programs(out: &mut Writer, sampled: SampledTurns, blocks: Blocks)
    ensures { Puts out.old (programs_text sampled blocks.entry.old.now blocks.entry.new.now) out.new }
{
    put_names(out, blocks);
    put_codes(out, sampled, blocks);
    put_gate(out, blocks);
    put_undrawn_part(out, blocks);
    put_counts(out, blocks);
}

// The text of two blocks. Where one has another length, or the turns are another number than 6 or 8, there is none, and the answer is why.
#[tactic(auto, using(text::proofs::Writing::puts_none), unfolding(crate::specs::Differences::differences_text, refusals::specs::Refusals::check_block, refusals::specs::Refusals::check_turns, turns::specs::Turns::turns_text, turns::specs::Turns::turns_read))]
pub fn put_differences(out: &mut Writer, turns: u32, old: &[u8], new: &[u8]) -> Result<(), Refusal>
    ensures text { Puts out.old (differences_text turns old.now new.now) out.new }
    ensures refusal { answer_refusal result ≡ check_block (length old.now) (check_block (length new.now) (check_turns turns accepted)) }
{
    let blocks = Blocks::new(old, new)?;
    let sampled = turns_read(turns).ok_or(Refusal::Turns)?;
    put_programs(out, sampled, blocks);
    Ok(())
}
