// The codes of a program's generators, as the reference's builders take them.
#![tactic(auto)]

ghost use Rattle.std.specs.Prelude.{◌≡◌, ◌≤◌};
ghost use Rattle.codes.specs.Codes.{envelope_number, lfo_number, oscillator_number, code_number, code_of};

#[derive(Clone, Copy)]
pub enum EnvelopeId {
    Vca,
    Vcf,
    Mod,
}

#[derive(Clone, Copy)]
pub enum LfoId {
    One,
    Two,
}

#[derive(Clone, Copy)]
pub enum OscillatorId {
    One,
    Two,
}

#[derive(Clone, Copy)]
pub enum Code {
    Envelope(EnvelopeId),
    Lfo(LfoId),
    LfoUnipolar(LfoId),
    Fade(LfoId),
    LowPass,
    HighPass,
    Oscillator(OscillatorId),
    Noise,
}

// How many codes there are, from 0 up.
pub const CODES: u8 = 14;

// The first number that is none.
const ABOVE: u32 = CODES as u32;

pub fn code_from(byte: u8) -> Option<Code>
    ensures { result ≡ code_of byte }
{
    match byte {
        0 => Some(Code::Envelope(EnvelopeId::Vca)),
        1 => Some(Code::Envelope(EnvelopeId::Vcf)),
        2 => Some(Code::Envelope(EnvelopeId::Mod)),
        3 => Some(Code::Lfo(LfoId::One)),
        4 => Some(Code::Lfo(LfoId::Two)),
        5 => Some(Code::LfoUnipolar(LfoId::One)),
        6 => Some(Code::LfoUnipolar(LfoId::Two)),
        7 => Some(Code::Fade(LfoId::One)),
        8 => Some(Code::Fade(LfoId::Two)),
        9 => Some(Code::LowPass),
        10 => Some(Code::HighPass),
        11 => Some(Code::Oscillator(OscillatorId::One)),
        12 => Some(Code::Oscillator(OscillatorId::Two)),
        13 => Some(Code::Noise),
        14..=255 => None,
    }
}

// The code of a wider number.
pub fn code_read(number: u32) -> Option<Code>
    ensures { result ≡ code_of number }
{
    if ABOVE <= number {
        return None;
    }
    code_from(number as u8)
}

fn envelope_number(id: EnvelopeId) -> u8
    ensures { result ≡ envelope_number id }
{
    match id {
        EnvelopeId::Vca => 0,
        EnvelopeId::Vcf => 1,
        EnvelopeId::Mod => 2,
    }
}

fn lfo_number(id: LfoId) -> u8
    ensures { (result ≡ lfo_number id) × (result ≤ 1) }
{
    match id {
        LfoId::One => 0,
        LfoId::Two => 1,
    }
}

fn oscillator_number(id: OscillatorId) -> u8
    ensures { (result ≡ oscillator_number id) × (result ≤ 1) }
{
    match id {
        OscillatorId::One => 0,
        OscillatorId::Two => 1,
    }
}

pub fn code_number(code: Code) -> u8
    ensures { result ≡ code_number code }
{
    match code {
        Code::Envelope(id) => envelope_number(id),
        Code::Lfo(id) => 3 + lfo_number(id),
        Code::LfoUnipolar(id) => 5 + lfo_number(id),
        Code::Fade(id) => 7 + lfo_number(id),
        Code::LowPass => 9,
        Code::HighPass => 10,
        Code::Oscillator(id) => 11 + oscillator_number(id),
        Code::Noise => 13,
    }
}
