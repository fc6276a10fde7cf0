// A sustain-curve byte for a wanted end: all 256 are tried, from 0 upward, until one ends the sustain near the wanted level.
#![tactic(auto)]

ghost use Rattle.std.specs.Prelude.{◌≡◌, true};
ghost use Rattle.level.specs.Level.{is_level};
ghost use Rattle.curve_finder.specs.Promises.{Near, EndsNear, CurveAnswered, Tells};

use envelope_settings::sustain_end;
use level::is_level;
use refusals::Refusal;

// A byte that was found, or none, and how many were tried.
#[derive(Clone, Copy)]
pub struct Search {
    pub byte: Option<u8>,
    pub tried: u32,
}

// How far an end may lie from the wanted level.
const REACH: f32 = 1.0 / 512.0;

// Whether two levels differ by at most REACH, as the numbers that they hold. A level less REACH loses nothing, or is not above 0.
fn near(a: f32, b: f32) -> bool
    requires { (is_level a ≡ true) × (is_level b ≡ true) }
    ensures { Tells result (Near a b) }
{
    if b < a - REACH {
        return false;
    }
    if a < b - REACH {
        return false;
    }
    true
}

// Whether a curve byte is an answer.
fn ends_near(sustain: u8, curve: u8, wanted: f32) -> bool
    requires { is_level wanted ≡ true }
    ensures { Tells result (EndsNear sustain wanted curve) }
{
    near(sustain_end(sustain, curve), wanted)
}

// A curve byte for a sustain byte and a wanted level.
pub fn curve_for_end(sustain: u8, wanted: f32) -> Result<Search, Refusal>
    ensures { CurveAnswered sustain wanted result }
{
    if !is_level(wanted) {
        return Err(Refusal::Level);
    }
    for byte in 0..=255u8 {
        if ends_near(sustain, byte, wanted) {
            return Ok(Search {
                byte: Some(byte),
                tried: byte as u32 + 1,
            });
        }
    }
    Ok(Search {
        byte: None,
        tried: 256,
    })
}
