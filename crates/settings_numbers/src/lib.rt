// The settings of a generator as plain numbers, its fields in the order of their declaration.
#![tactic(auto)]

ghost use Rattle.std.specs.Prelude.{◌≡◌, [], ◌∷◌};
ghost use Rattle.settings_numbers.specs.Numbers.{flag_of, shape_number, pass_number, stored_settings, settings_numbers};

use generator::Shape;
use settings::{Envelope, Filter, Lfo, LfoShape, Oscillator, Pass};

// The most settings that a generator has.
pub const MAX_SETTINGS: usize = 8;

// The first `count` places are settings; the others are 0.
#[derive(Clone, Copy)]
pub struct Numbers {
    pub places: [f32; MAX_SETTINGS],
    pub count: usize,
}

fn flag(b: bool) -> f32
    ensures { result ≡ flag_of b }
{
    if b {
        return 1.0;
    }
    0.0
}

fn shape_number(shape: LfoShape) -> f32
    ensures { result ≡ shape_number shape }
{
    match shape {
        LfoShape::Sine => 0.0,
        LfoShape::Triangle => 1.0,
        LfoShape::Square => 2.0,
        LfoShape::RampUp => 3.0,
        LfoShape::RampDown => 4.0,
        LfoShape::SampleAndHold => 5.0,
        LfoShape::SampleAndGlide => 6.0,
    }
}

fn pass_number(pass: Pass) -> f32
    ensures { result ≡ pass_number pass }
{
    match pass {
        Pass::Low => 0.0,
        Pass::High => 1.0,
    }
}

fn envelope_numbers(e: Envelope) -> Numbers
    ensures { result ≡ settings_numbers (Shape.Envelope e) }
{
    Numbers {
        places: [
            e.first,
            e.second,
            e.third,
            e.sustain,
            e.sustain_end,
            e.attack_bend,
            e.decay_bend,
            e.release_bend,
        ],
        count: 8,
    }
}

fn lfo_numbers(l: Lfo) -> Numbers
    ensures { result ≡ settings_numbers (Shape.Lfo l) }
{
    let shape = l.shape;
    Numbers {
        places: [
            shape_number(shape),
            l.turns,
            l.slew,
            flag(l.unipolar),
            flag(l.synced),
            0.0,
            0.0,
            0.0,
        ],
        count: 5,
    }
}

fn filter_numbers(f: Filter) -> Numbers
    ensures { result ≡ settings_numbers (Shape.Filter f) }
{
    let pass = f.pass;
    Numbers {
        places: [
            f.slope,
            f.resonance,
            f.span,
            pass_number(pass),
            0.0,
            0.0,
            0.0,
            0.0,
        ],
        count: 4,
    }
}

fn oscillator_numbers(o: Oscillator) -> Numbers
    ensures { result ≡ settings_numbers (Shape.Oscillator o) }
{
    Numbers {
        places: [
            flag(o.saw),
            flag(o.pulse),
            o.width,
            o.sweep,
            o.level,
            0.0,
            0.0,
            0.0,
        ],
        count: 5,
    }
}

fn one_number(x: f32) -> Numbers
    ensures { result ≡ stored_settings (x ∷ []) }
{
    Numbers {
        places: [x, 0.0, 0.0, 0.0, 0.0, 0.0, 0.0, 0.0],
        count: 1,
    }
}

// The fields of a generator's settings, in the order of their declaration.
pub fn settings_numbers(shape: Shape) -> Numbers
    ensures { result ≡ settings_numbers shape }
{
    match shape {
        Shape::Envelope(e) => envelope_numbers(e),
        Shape::Fade(f) => one_number(f.end),
        Shape::Lfo(l) => lfo_numbers(l),
        Shape::Filter(f) => filter_numbers(f),
        Shape::Oscillator(o) => oscillator_numbers(o),
        Shape::Noise(n) => one_number(n.level),
    }
}
