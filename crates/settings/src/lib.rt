// The settings of each generator: plain data, built by value from a program's bytes. An envelope's are built in envelope_settings.
#![tactic(auto)]

ghost use Rattle.std.specs.Prelude.{◌≡◌};
ghost use Rattle.settings.specs.Settings.{byte_of, lfo_shape_of, sampled_turns, turns_of, lfo_of, turned_lfo, fade_of, low_pass_of, high_pass_of, pole_slope_of, is_manual, oscillator_one_of, oscillator_two_of, noise_of};

use math::from_u16;

// Where an envelope's attack, decay and sustain end, its two levels, and the bends of its timed segments.
#[derive(Clone, Copy)]
pub struct Envelope {
    pub first: f32,
    pub second: f32,
    pub third: f32,
    pub sustain: f32,
    pub sustain_end: f32,
    pub attack_bend: f32,
    pub decay_bend: f32,
    pub release_bend: f32,
}

#[derive(Clone, Copy)]
pub enum LfoShape {
    Sine,
    Triangle,
    Square,
    RampUp,
    RampDown,
    SampleAndHold,
    SampleAndGlide,
}

// How many cycles of a sampled shape are drawn.
#[derive(Clone, Copy)]
pub enum SampledTurns {
    Six,
    Eight,
}

#[derive(Clone, Copy)]
pub struct Lfo {
    pub shape: LfoShape,
    pub turns: f32,
    pub slew: f32,
    pub unipolar: bool,
    pub synced: bool,
}

// Where the rise ends.
#[derive(Clone, Copy)]
pub struct Fade {
    pub end: f32,
}

// The side of the corner that is passed.
#[derive(Clone, Copy)]
pub enum Pass {
    Low,
    High,
}

#[derive(Clone, Copy)]
pub struct Filter {
    pub slope: f32,
    pub resonance: f32,
    pub span: f32,
    pub pass: Pass,
}

#[derive(Clone, Copy)]
pub struct Oscillator {
    pub saw: bool,
    pub pulse: bool,
    pub width: f32,
    pub sweep: f32,
    pub level: f32,
}

#[derive(Clone, Copy)]
pub struct Noise {
    pub level: f32,
}

// The time that a held level is drawn for.
pub const HOLD_WIDTH: f32 = 0.5;

// The octaves to either side of a filter's corner.
const FILTER_SPAN: f32 = 3.0;

// How far the pulse's edge can move, as a part of the cycle.
const PULSE_REACH: f32 = 0.49;

pub fn byte(raw: u8) -> f32
    ensures { result ≡ byte_of raw }
{
    from_u16(raw as u16) / 255.0
}

// ---- LFO
impl From<u8> for LfoShape {
    ghost from_gives = { λ raw r. r ≡ lfo_shape_of raw };

    fn from(raw: u8) -> LfoShape {
        match raw {
            0 => LfoShape::Sine,
            1 => LfoShape::Triangle,
            2 => LfoShape::Square,
            3 => LfoShape::RampUp,
            4 => LfoShape::RampDown,
            5 => LfoShape::SampleAndHold,
            6 => LfoShape::SampleAndGlide,
            7..=255 => LfoShape::Sine,
        }
    }
}

fn sampled_turns(sampled: SampledTurns) -> f32
    ensures { result ≡ sampled_turns sampled }
{
    match sampled {
        SampledTurns::Six => 6.0,
        SampledTurns::Eight => 8.0,
    }
}

// The cycles that are drawn: of a sampled shape so many, of every other shape one.
pub fn turns(sampled: SampledTurns, shape: LfoShape) -> f32
    ensures { result ≡ turns_of sampled shape }
{
    match shape {
        LfoShape::Sine => 1.0,
        LfoShape::Triangle => 1.0,
        LfoShape::Square => 1.0,
        LfoShape::RampUp => 1.0,
        LfoShape::RampDown => 1.0,
        LfoShape::SampleAndHold => sampled_turns(sampled),
        LfoShape::SampleAndGlide => sampled_turns(sampled),
    }
}

pub fn lfo_from(shape: u8, slew: u8, sync: u8, unipolar: bool) -> Lfo
    ensures { result ≡ lfo_of shape slew sync unipolar }
{
    let shape = LfoShape::from(shape);
    Lfo {
        shape,
        turns: turns(SampledTurns::Six, shape),
        slew: byte(slew),
        unipolar,
        synced: sync != 0,
    }
}

// The same LFO with its shape's turns at another number for the sampled ones.
pub fn turned_lfo(sampled: SampledTurns, lfo: Lfo) -> Lfo
    ensures { result ≡ turned_lfo sampled lfo }
{
    Lfo {
        turns: turns(sampled, lfo.shape),
        ..lfo
    }
}

pub fn fade_from(fade: u8) -> Fade
    ensures { result ≡ fade_of fade }
{
    let rise = byte(fade);
    Fade {
        end: rise / (rise + HOLD_WIDTH),
    }
}

// ---- filters
// Pole byte 1 is two poles; all others are four.
fn low_pass_slope(pole: u8) -> f32
    ensures { result ≡ pole_slope_of pole }
{
    match pole {
        0 => 24.0,
        1 => 12.0,
        2..=255 => 24.0,
    }
}

pub fn low_pass_from(resonance: u8, pole: u8) -> Filter
    ensures { result ≡ low_pass_of resonance pole }
{
    Filter {
        slope: low_pass_slope(pole),
        resonance: byte(resonance),
        span: FILTER_SPAN,
        pass: Pass::Low,
    }
}

pub fn high_pass() -> Filter
    ensures { result ≡ high_pass_of }
{
    Filter {
        slope: 6.0,
        resonance: 0.0,
        span: FILTER_SPAN,
        pass: Pass::High,
    }
}

// ---- oscillators
// The source that sets the width by hand is 0, and every byte that names none.
fn is_manual(source: u8) -> bool
    ensures { result ≡ is_manual source }
{
    match source {
        0 => true,
        1..=5 => false,
        6..=255 => true,
    }
}

pub fn oscillator_one_from(source: u8, pulse: u8, saw: u8, depth: u8) -> Oscillator
    ensures { result ≡ oscillator_one_of source pulse saw depth }
{
    let reach = byte(depth) * PULSE_REACH;
    if is_manual(source) {
        return Oscillator {
            saw: saw != 0,
            pulse: pulse != 0,
            width: 0.5 + reach,
            sweep: 0.0,
            level: 1.0,
        };
    }
    Oscillator {
        saw: saw != 0,
        pulse: pulse != 0,
        width: 0.5,
        sweep: reach,
        level: 1.0,
    }
}

pub fn oscillator_two_from(level: u8) -> Oscillator
    ensures { result ≡ oscillator_two_of level }
{
    Oscillator {
        saw: false,
        pulse: true,
        width: 0.5,
        sweep: 0.0,
        level: byte(level),
    }
}

// ---- noise
pub fn noise_from(level: u8) -> Noise
    ensures { result ≡ noise_of level }
{
    Noise { level: byte(level) }
}
