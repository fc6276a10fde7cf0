// The LFO's shapes, by the phase: a number of cycles.
#![tactic(auto)]

ghost use Rattle.std.specs.Prelude.{◌≡◌};
ghost use Rattle.lfo_shapes.specs.Formula.{wrap_of, sample_of, sampled_of, sine_of, triangle_of, square_of, ramp_down_of, glide_of, shape_at_of};

use floor::fract;
use rounded_floor::floor;
use settings::LfoShape;
use sine::sin_turns;

// Where the phase falls within its cycle. At the end of a cycle it is 1, and not the 0 of the next.
fn wrap(phase: f32) -> f32
    ensures { result ≡ wrap_of phase }
{
    let within = fract(phase);
    if phase > 0.0 {
        if within <= 0.0 {
            return 1.0;
        }
    }
    within
}

// The sample that an index of 0 to 7 names. Below that it is the first, and so it is for a NaN; above it is the last.
fn sample(index: f32) -> f32
    ensures { result ≡ sample_of index }
{
    if index >= 4.0 {
        if index >= 6.0 {
            if index >= 7.0 {
                return 0.86;
            }
            return 0.31;
        }
        if index >= 5.0 {
            return 0.63;
        }
        return 0.08;
    }
    if index >= 2.0 {
        if index >= 3.0 {
            return 0.41;
        }
        return 0.95;
    }
    if index >= 1.0 {
        return 0.18;
    }
    0.72
}

// The sample of the cycle that the phase falls in: the eight repeat.
fn sampled(phase: f32) -> f32
    ensures { result ≡ sampled_of phase }
{
    let cycle = floor(phase);
    sample(cycle - floor(cycle / 8.0) * 8.0)
}

fn lfo_sine(phase: f32) -> f32
    ensures { result ≡ sine_of phase }
{
    0.5 + 0.5 * sin_turns(phase)
}

fn triangle(phase: f32) -> f32
    ensures { result ≡ triangle_of phase }
{
    let within = wrap(phase);
    if within < 0.5 {
        return within * 2.0;
    }
    2.0 - within * 2.0
}

fn square(phase: f32) -> f32
    ensures { result ≡ square_of phase }
{
    if wrap(phase) < 0.5 {
        return 1.0;
    }
    0.0
}

fn ramp_down(phase: f32) -> f32
    ensures { result ≡ ramp_down_of phase }
{
    1.0 - wrap(phase)
}

// From the sample of the cycle before to that of this cycle.
fn glide(phase: f32) -> f32
    ensures { result ≡ glide_of phase }
{
    let previous = sampled(phase - 1.0);
    previous + (sampled(phase) - previous) * rounded_floor::fract(phase)
}

// The shape's level at a phase, with no limit on its slope.
pub fn shape_at(shape: LfoShape, phase: f32) -> f32
    ensures { result ≡ shape_at_of shape phase }
{
    match shape {
        LfoShape::Sine => lfo_sine(phase),
        LfoShape::Triangle => triangle(phase),
        LfoShape::Square => square(phase),
        LfoShape::RampUp => wrap(phase),
        LfoShape::RampDown => ramp_down(phase),
        LfoShape::SampleAndHold => sampled(phase),
        LfoShape::SampleAndGlide => glide(phase),
    }
}
