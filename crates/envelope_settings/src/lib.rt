// The settings that a program's bytes give an envelope.
#![tactic(auto)]

ghost use Rattle.std.specs.Prelude.{◌≡◌};
ghost use Rattle.envelope_settings.specs.Formula.{sustain_end_of, envelope_of};

use bend::bend;
use settings::{Envelope, HOLD_WIDTH, byte};

// The level that the sustain ends at: toward 0 below the curve's middle, toward 1 above it.
pub fn sustain_end(sustain: u8, curve: u8) -> f32
    ensures { result ≡ sustain_end_of sustain curve }
{
    let from = byte(sustain);
    let slope = (byte(curve) - 0.5) * 2.0;
    if slope < 0.0 {
        return from * (1.0 + slope);
    }
    from + (1.0 - from) * slope
}

pub fn envelope_from(
    attack: u8,
    decay: u8,
    sustain: u8,
    release: u8,
    attack_curve: u8,
    decay_curve: u8,
    sustain_curve: u8,
    release_curve: u8,
) -> Envelope
    ensures { result ≡ envelope_of attack decay sustain release attack_curve decay_curve sustain_curve release_curve }
{
    let rise = byte(attack);
    let fall = byte(decay);
    let total = rise + fall + HOLD_WIDTH + byte(release);
    let first = rise / total;
    let second = first + fall / total;
    Envelope {
        first,
        second,
        third: second + HOLD_WIDTH / total,
        sustain: byte(sustain),
        sustain_end: sustain_end(sustain, sustain_curve),
        attack_bend: bend(attack_curve),
        decay_bend: bend(decay_curve),
        release_bend: bend(release_curve),
    }
}
