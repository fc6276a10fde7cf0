// A generator: a shape and what its horizontal measures, with its marks, its rest level, its scale and its anchor. Its heights are shape_heights'.
#![tactic(auto)]

ghost use Rattle.std.specs.Prelude.{◌≡◌};
ghost use Rattle.generator.specs.Generator.{scale_number, scale_value, rest_of, anchored_of, marks_of};

use marks::{
    MarkKind, Marks, cycles, envelope_marks, fade_marks, no_marks, oscillator_marks, push,
};
use settings::{Envelope, Fade, Filter, Lfo, Noise, Oscillator};

// What a generator is a shape of.
#[derive(Clone, Copy)]
pub enum Shape {
    Envelope(Envelope),
    Fade(Fade),
    Lfo(Lfo),
    Filter(Filter),
    Oscillator(Oscillator),
    Noise(Noise),
}

// What the horizontal covers: nothing that is published, a number of cycles, or a number of octaves about the corner.
#[derive(Clone, Copy)]
pub enum Scale {
    Normalised,
    Turns(f32),
    Octaves(f32),
}

#[derive(Clone, Copy)]
pub struct Generator {
    pub shape: Shape,
    pub scale: Scale,
}

// The decibels at the top and at the bottom of a filter's picture, and the height of 0 decibels.
pub const FILTER_CEILING_DB: f32 = 12.0;

pub const FILTER_FLOOR_DB: f32 = -48.0;

pub const FILTER_UNITY: f32 = -FILTER_FLOOR_DB / (FILTER_CEILING_DB - FILTER_FLOOR_DB);

// ---- what a generator says of itself
impl Generator {
    // The height where the shape does nothing.
    pub fn rest(self) -> f32
        ensures { result ≡ rest_of self.shape }
    {
        let shape = self.shape;
        match shape {
            Shape::Envelope(_) => 0.0,
            Shape::Fade(_) => 0.0,
            Shape::Lfo(l) => {
                if l.unipolar {
                    return 0.0;
                }
                0.5
            }
            Shape::Filter(_) => FILTER_UNITY,
            Shape::Oscillator(_) => 0.5,
            Shape::Noise(_) => 0.5,
        }
    }

    pub fn scale(self) -> Scale
        ensures { result ≡ self.scale }
    {
        self.scale
    }

    // Whether the left edge is a moment: an LFO's only where it is synced.
    pub fn anchored(self) -> bool
        ensures { result ≡ anchored_of self.shape }
    {
        let shape = self.shape;
        match shape {
            Shape::Envelope(_) => true,
            Shape::Fade(_) => true,
            Shape::Lfo(l) => l.synced,
            Shape::Filter(_) => true,
            Shape::Oscillator(_) => false,
            Shape::Noise(_) => false,
        }
    }

    // Where along the horizontal something happens.
    pub fn marks(self) -> Marks
        ensures { result ≡ marks_of self.shape }
    {
        let shape = self.shape;
        match shape {
            Shape::Envelope(e) => envelope_marks(e),
            Shape::Fade(f) => fade_marks(f),
            Shape::Lfo(l) => cycles(no_marks(), l.turns),
            Shape::Filter(_) => push(no_marks(), 0.5, MarkKind::Corner),
            Shape::Oscillator(o) => oscillator_marks(o),
            Shape::Noise(_) => no_marks(),
        }
    }
}

// ---- a scale as numbers
pub fn scale_number(scale: Scale) -> u32
    ensures { result ≡ scale_number scale }
{
    match scale {
        Scale::Normalised => 0,
        Scale::Turns(_) => 1,
        Scale::Octaves(_) => 2,
    }
}

// The number that a scale carries, or 0.
pub fn scale_value(scale: Scale) -> f32
    ensures { result ≡ scale_value scale }
{
    match scale {
        Scale::Normalised => 0.0,
        Scale::Turns(turns) => turns,
        Scale::Octaves(octaves) => octaves,
    }
}
