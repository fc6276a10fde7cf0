// The response of a filter over three octaves to either side of its corner, in decibels from -48 to 12.
#![tactic(auto)]

ghost use Rattle.std.specs.Prelude.{◌≡◌};
ghost use Rattle.filter.specs.Formula.{mirrored_of, octaves_of, squared_of, log_of, distance_of, peak_of, filter_level_of, filter_height_of};

use curve::{Height, clamp_unit, position};
use exp2::exp2;
use log2::log2;
use settings::{Filter, Pass};

// Half the power, in decibels.
const HALF_POWER: f32 = -3.010_3;

// The top of the peak and of the drawing, its bottom, and the difference.
const CEILING: f32 = 12.0;

const FLOOR: f32 = -48.0;

const RANGE: f32 = CEILING - FLOOR;

// A high-pass is a low-pass mirrored: its octaves are counted the other way.
fn mirror(pass: Pass, octaves: f32) -> f32
    ensures { result ≡ mirrored_of pass octaves }
{
    match pass {
        Pass::Low => octaves,
        Pass::High => -octaves,
    }
}

// How many octaves position t lies beyond the corner, which is at one half.
fn octaves(filter: Filter, t: f32) -> f32
    ensures { result ≡ octaves_of filter t }
{
    let pass = filter.pass;
    mirror(pass, (t - 0.5) * 2.0 * filter.span)
}

// The exponent of the squared term, 6 decibels to an octave being one pole.
fn squared(filter: Filter, octaves: f32) -> f32
    ensures { result ≡ squared_of filter octaves }
{
    2.0 * (filter.slope / 6.0) * octaves
}

// The logarithm of 1 + 2 ^ squared: far beyond the corner it is squared itself.
fn log(squared: f32) -> f32
    ensures { result ≡ log_of squared }
{
    if squared > 30.0 {
        return squared;
    }
    log2(1.0 + exp2(squared))
}

// Octaves, scaled by how narrow the peak is.
fn distance(filter: Filter, octaves: f32) -> f32
    ensures { result ≡ distance_of filter octaves }
{
    octaves * (2.0 + filter.resonance * 6.0)
}

// The resonant peak at the corner, in decibels.
fn peak(filter: Filter, distance: f32) -> f32
    ensures { result ≡ peak_of filter distance }
{
    filter.resonance * CEILING / (1.0 + distance * distance)
}

// The response at t, clamped to 0..1.
fn level(filter: Filter, t: f32) -> f32
    ensures { result ≡ filter_level_of filter t }
{
    let octaves = octaves(filter, t);
    let magnitude = HALF_POWER * log(squared(filter, octaves));
    let decibels = magnitude + peak(filter, distance(filter, octaves));
    clamp_unit((decibels - FLOOR) / RANGE)
}

// A sample's height: what a strip's loop calls, and without the steps, which are none.
pub fn filter_sample(filter: Filter, t: f32) -> f32
    ensures { result ≡ (filter_height_of filter t).height }
{
    clamp_unit(level(filter, position(t)))
}

// The height of a filter's curve at position t.
pub fn filter_height(filter: Filter, t: f32) -> Height
    ensures { result ≡ filter_height_of filter t }
{
    Height {
        height: filter_sample(filter, t),
        steps: 0,
    }
}
