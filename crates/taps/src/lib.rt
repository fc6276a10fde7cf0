// The impulse train of a delay: a spike at each of its taps.
#![tactic(auto)]

ghost use Rattle.std.specs.Prelude.{◌≡◌, false};
ghost use Rattle.std.specs.Float.Ieee.{lt};
ghost use Rattle.exact.specs.Binary32.{zero₃₂};
ghost use Rattle.curve.specs.Curve.{drawn_of};
ghost use Rattle.taps.specs.Formula.{used_of, raised_to, tap_raised_of, taps_level_of};
ghost use Rattle.taps.specs.Promises.{TapsAnswered};

use curve::{Height, lowered, position};
use math::abs;

// The most taps that a delay has.
pub const MAX_TAPS: usize = 4;

// Half the width of a tap, as a part of the whole.
const WIDTH: f32 = 0.014;

// Where each tap falls and how tall it is; the first `used` of them are taps.
#[derive(Clone, Copy)]
pub struct Taps {
    pub at: [f32; MAX_TAPS],
    pub tall: [f32; MAX_TAPS],
    pub used: usize,
}

// The larger of the two, by one comparison: the height so far is +0 or a number above 0, and a NaN is above neither.
fn raised_to(height: f32, spike: f32) -> f32
    ensures { result ≡ raised_to height spike }
{
    if height < spike {
        return spike;
    }
    height
}

// The height so far, or the tap's where that is larger. Most positions are beyond the tap to one side: the distance is taken of the others alone.
fn tap_height(at: f32, tall: f32, t: f32, height: f32) -> f32
    ensures { result ≡ tap_raised_of at tall t height }
{
    let offset = t - at;
    if offset < WIDTH {
        if -WIDTH < offset {
            let distance = abs(offset);
            return raised_to(height, tall * (1.0 - distance / WIDTH));
        }
    }
    height
}

// The largest of the taps' heights, from 0 on. The taps are written out, so that one that is not used is not read.
fn taps_level(taps: Taps, t: f32) -> f32
    ensures { result ≡ taps_level_of taps t (used_of taps) }
{
    let used = taps.used;
    if used < 1 {
        return 0.0;
    }
    let first = tap_height(taps.at[0], taps.tall[0], t, 0.0);
    if used < 2 {
        return first;
    }
    let second = tap_height(taps.at[1], taps.tall[1], t, first);
    if used < 3 {
        return second;
    }
    let third = tap_height(taps.at[2], taps.tall[2], t, second);
    if used < 4 {
        return third;
    }
    tap_height(taps.at[3], taps.tall[3], t, third)
}

// A level that is not below 0, clamped to 0..1: it has only to be lowered.
fn drawn_from_zero(level: f32) -> Height
    requires { lt level zero₃₂ ≡ false }
    ensures { result ≡ drawn_of level }
{
    Height {
        height: lowered(level),
        steps: 0,
    }
}

// The height of an impulse train, which is never refused.
pub fn taps_height(taps: Taps, t: f32) -> Height
    ensures { TapsAnswered taps t result }
{
    drawn_from_zero(taps_level(taps, position(t)))
}
