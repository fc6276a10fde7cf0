// The generator of a shape, and of the bytes that a shape is made of: a builder for each kind.
#![tactic(auto)]

ghost use Rattle.std.specs.Prelude.{◌≡◌, true, false};
ghost use Rattle.settings.specs.Settings.{lfo_of, fade_of, low_pass_of, high_pass_of, oscillator_one_of, oscillator_two_of, noise_of};
ghost use Rattle.envelope_settings.specs.Formula.{envelope_of};
ghost use Rattle.generator.specs.Generator.{scale_of, generator_of};

use envelope_settings::envelope_from;
use generator::{Generator, Scale, Shape};
use settings::{
    fade_from, high_pass, lfo_from, low_pass_from, noise_from, oscillator_one_from,
    oscillator_two_from,
};

// ---- of a shape
// What a shape's horizontal covers: an LFO's turns, a filter's span on either side of its corner, one turn of an oscillator.
fn scale_of(shape: Shape) -> Scale
    ensures { result ≡ scale_of shape }
{
    match shape {
        Shape::Envelope(_) => Scale::Normalised,
        Shape::Fade(_) => Scale::Normalised,
        Shape::Lfo(l) => Scale::Turns(l.turns),
        Shape::Filter(f) => Scale::Octaves(f.span * 2.0),
        Shape::Oscillator(_) => Scale::Turns(1.0),
        Shape::Noise(_) => Scale::Normalised,
    }
}

pub fn of_shape(shape: Shape) -> Generator
    ensures { result ≡ generator_of shape }
{
    Generator {
        shape,
        scale: scale_of(shape),
    }
}

// ---- of bytes
pub fn envelope(
    attack: u8,
    decay: u8,
    sustain: u8,
    release: u8,
    attack_curve: u8,
    decay_curve: u8,
    sustain_curve: u8,
    release_curve: u8,
) -> Generator
    ensures { result ≡ generator_of (Shape.Envelope (envelope_of attack decay sustain release attack_curve decay_curve sustain_curve release_curve)) }
{
    of_shape(Shape::Envelope(envelope_from(
        attack,
        decay,
        sustain,
        release,
        attack_curve,
        decay_curve,
        sustain_curve,
        release_curve,
    )))
}

// An LFO about the middle of its range.
pub fn lfo(shape: u8, slew: u8, sync: u8) -> Generator
    ensures { result ≡ generator_of (Shape.Lfo (lfo_of shape slew sync false)) }
{
    of_shape(Shape::Lfo(lfo_from(shape, slew, sync, false)))
}

// An LFO from the bottom of its range.
pub fn lfo_unipolar(shape: u8, slew: u8, sync: u8) -> Generator
    ensures { result ≡ generator_of (Shape.Lfo (lfo_of shape slew sync true)) }
{
    of_shape(Shape::Lfo(lfo_from(shape, slew, sync, true)))
}

pub fn lfo_fade(fade: u8) -> Generator
    ensures { result ≡ generator_of (Shape.Fade (fade_of fade)) }
{
    of_shape(Shape::Fade(fade_from(fade)))
}

pub fn filter_response(resonance: u8, pole: u8) -> Generator
    ensures { result ≡ generator_of (Shape.Filter (low_pass_of resonance pole)) }
{
    of_shape(Shape::Filter(low_pass_from(resonance, pole)))
}

pub fn high_pass_response() -> Generator
    ensures { result ≡ generator_of (Shape.Filter high_pass_of) }
{
    of_shape(Shape::Filter(high_pass()))
}

pub fn oscillator_one(source: u8, pulse: u8, saw: u8, depth: u8) -> Generator
    ensures { result ≡ generator_of (Shape.Oscillator (oscillator_one_of source pulse saw depth)) }
{
    of_shape(Shape::Oscillator(oscillator_one_from(source, pulse, saw, depth)))
}

pub fn oscillator_two(level: u8) -> Generator
    ensures { result ≡ generator_of (Shape.Oscillator (oscillator_two_of level)) }
{
    of_shape(Shape::Oscillator(oscillator_two_from(level)))
}

pub fn noise(level: u8) -> Generator
    ensures { result ≡ generator_of (Shape.Noise (noise_of level)) }
{
    of_shape(Shape::Noise(noise_from(level)))
}
