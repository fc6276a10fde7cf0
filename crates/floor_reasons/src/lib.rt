// Why the floor is what it is, in words: by the sign of x, and by the bits of the fraction that stand below the point.
#![tactic(auto)]

ghost use Rattle.text.specs.Text.{Puts};
ghost use Rattle.floor_reasons.specs.Reasons.{small_reason, cleared_reason, step_reason};

use float_bits::float_of;
use numerals::put_decimal;
use text::{Writer, put};

// At an exponent below 0.
pub fn put_small_reason(out: &mut Writer, b: u32)
    ensures { Puts out.old (small_reason b) out.new }
{
    if float_of(b) < 0.0 {
        return put(out, b"-1, since x is below 0\n");
    }
    put(out, b"+0, since x is not below 0\n");
}

// At an exponent from 0 to 22: k bits are cleared.
pub fn put_cleared_reason(out: &mut Writer, k: u32)
    ensures { Puts out.old (cleared_reason k) out.new }
{
    if k == 1 {
        return put(out, b"the lowest bit of the fraction is cleared\n");
    }
    put(out, b"the low ");
    put_decimal(out, k as u64);
    put(out, b" bits of the fraction are cleared\n");
}

// Whether 1 is taken off, and why: x is below 0, and one of the cleared bits was set.
pub fn put_step_reason(out: &mut Writer, b: u32, some: bool)
    ensures { Puts out.old (step_reason some b) out.new }
{
    if float_of(b) < 0.0 {
        if some {
            return put(
                out,
                b"less 1, since x is below 0 and a set bit was cleared\n",
            );
        }
        return put(out, b"and that is all, since no set bit was cleared\n");
    }
    put(out, b"and that is all, since x is not below 0\n");
}
