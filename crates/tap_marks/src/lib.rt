// What stands beside the curve of an impulse train: a mark at each tap, where it rests, what its horizontal measures, and whether its left edge is a moment.
#![tactic(auto)]

ghost use Rattle.std.specs.Prelude.{◌≡◌, true};
ghost use Rattle.exact.specs.Binary32.{zero₃₂};
ghost use Rattle.marks.specs.Marks.{stored};
ghost use Rattle.taps.specs.Formula.{used_of};
ghost use Rattle.tap_marks.specs.Marks.{tap_marks};

use generator::Scale;
use marks::{MarkKind, Marks, no_marks, push};
use taps::{MAX_TAPS, Taps};

// A mark at each tap, wherever it falls.
pub fn taps_marks(taps: Taps) -> Marks
    ensures { result ≡ stored (tap_marks taps (used_of taps)) }
{
    let count = taps.used.min(MAX_TAPS);
    let mut marks = no_marks();
    for at in &taps.at[..count] {
        marks = push(marks, *at, MarkKind::Tap);
    }
    marks
}

// The height where there is no tap.
pub fn taps_rest() -> f32
    ensures { result ≡ zero₃₂ }
{
    0.0
}

// No measure of the horizontal is published.
pub fn taps_scale() -> Scale
    ensures { result ≡ Scale.Normalised }
{
    Scale::Normalised
}

// The left edge is a moment.
pub fn taps_anchored() -> bool
    ensures { result ≡ true }
{
    true
}
