// The floor of one f32, worked as on paper: its bit pattern, the case of its exponent, and what follows.
// Every pattern is taken, a NaN's too.
#![tactic(auto)]

ghost use Rattle.std.specs.Prelude.{◌≡◌, ◌+◌, ◌/◌, ◌%◌, ◌^◌, ◌<◌, ◌≤◌};
ghost use Rattle.floor.specs.Exponent.{exponent};
ghost use Rattle.text.specs.Text.{Puts};
ghost use Rattle.floor_lines.specs.Lines.{line_of, head_of, floor_line};
ghost use Rattle.floor_lines.specs.Lines.{small_text, cut_text, large_text, case_text, working_text};

use bit_fields::put_pattern;
use float_bits::{float_of, word_of};
use floor::{FIELD, ONE, SIGN, WHOLE, floor};
use floor_number::{put_exponent, put_floor_number};
use floor_reasons::{put_cleared_reason, put_small_reason, put_step_reason};
use text::{Writer, put};

// A pattern on a line, behind what it is.
fn put_line(out: &mut Writer, name: &[u8], b: u32)
    ensures { Puts out.old (line_of name.now b) out.new }
{
    put(out, name);
    put_pattern(out, b);
    put(out, b"\n");
}

// The exponent, and what follows from it.
fn put_head(out: &mut Writer, b: u32, follows: &[u8])
    ensures { Puts out.old (head_of b follows.now) out.new }
{
    put(out, b"exponent ");
    put_exponent(out, b);
    put(out, follows);
}

// The floor at an exponent below 23: its pattern, and the whole number that it is.
fn put_floor(out: &mut Writer, b: u32)
    requires { b % 2 ^ 31 / 2 ^ 23 < 150 }
    ensures { Puts out.old (floor_line b) out.new }
{
    put(out, b"floor    ");
    put_pattern(out, word_of(floor(float_of(b))));
    put(out, b"  ");
    put_floor_number(out, b);
    put(out, b"\n");
}

// ---- an exponent below 0
fn put_small(out: &mut Writer, b: u32)
    requires { b % 2 ^ 31 / 2 ^ 23 < 127 }
    ensures { Puts out.old (small_text b) out.new }
{
    put_head(out, b, b", below 0: ");
    put_small_reason(out, b);
    put_floor(out, b);
}

// ---- an exponent from 0 to 22, where k bits of the fraction stand below the point
fn put_cut(out: &mut Writer, b: u32, k: u32)
    requires { (0 < k) × (k ≤ 23) × (b % 2 ^ 31 / 2 ^ 23 + k ≡ 150) }
    ensures { Puts out.old (cut_text k b) out.new }
{
    let low = b % (1 << k);
    put_head(out, b, b", from 0 to 22: ");
    put_cleared_reason(out, k);
    put_line(out, b"cleared  ", b - low);
    put_step_reason(out, b, low != 0);
    put_floor(out, b);
}

// ---- an exponent of 23 or more
fn put_large(out: &mut Writer, b: u32)
    ensures { Puts out.old (large_text b) out.new }
{
    put_head(out, b, b", 23 or more: x itself\n");
    put_line(out, b"floor    ", b);
}

// ---- the whole
fn put_case(out: &mut Writer, b: u32)
    ensures { Puts out.old (case_text (exponent b) b) out.new }
{
    let field = b % SIGN / FIELD;
    if field < ONE {
        return put_small(out, b);
    }
    if field < WHOLE {
        return put_cut(out, b, WHOLE - field);
    }
    put_large(out, b);
}

// The floor of a bit pattern, worked as on paper.
pub fn put_working(out: &mut Writer, b: u32)
    ensures { Puts out.old (working_text b) out.new }
{
    put_line(out, b"x        ", b);
    put_case(out, b);
}
