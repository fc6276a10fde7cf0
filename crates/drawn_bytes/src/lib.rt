// Which bytes of a block a curve, or the gates, are drawn from.
#![tactic(auto)]

ghost use Rattle.std.specs.Prelude.{◌≡◌};
ghost use Rattle.codes.specs.Codes.{code_of};
ghost use Rattle.drawn_bytes.specs.Drawn.{read_by, drawn};

use code_bytes::{GATE_TIME, bytes_of};
use codes::{CODES, code_from};

// How many bytes a block has.
pub const BYTES: u8 = 242;

// ---- by the codes
// Whether the code of number k reads byte n.
fn reads(k: u8, n: u8) -> bool
    ensures { result ≡ read_by (code_of k) n }
{
    match code_from(k) {
        Some(code) => {
            let bytes = bytes_of(code);
            bytes.at[..bytes.count].contains(&n)
        }
        None => false,
    }
}

// Whether a curve or the gates are drawn from byte n.
pub fn is_drawn(n: u8) -> bool
    ensures { result ≡ drawn n }
{
    if n as usize == GATE_TIME {
        return true;
    }
    for k in 0..CODES {
        if reads(k, n) {
            return true;
        }
    }
    false
}
