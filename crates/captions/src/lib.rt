// Captions: for each sample of an envelope, the segment that it lies in.
#![tactic(auto)]

ghost use Rattle.std.specs.Prelude.{◌≡◌, ◌≤◌, ◌+◌, length};
ghost use Rattle.marks.specs.Marks.{envelope_marks};
ghost use Rattle.lists.specs.Written.{written};
ghost use Rattle.captions.specs.Captions.{last_segment, caption_of, caption_at, answer_of, captions_of};

use generator::{Generator, Shape};
use settings::Envelope;
use strip::{fits, sample_position};

// The numbers of the segments, and that of none.
const ATTACK: u8 = 0;

const DECAY: u8 = 1;

const SUSTAIN: u8 = 2;

const RELEASE: u8 = 3;

pub const NO_CAPTION: u8 = 255;

// The length is not that of a strip.
#[derive(Clone, Copy)]
pub struct WrongLength;

// The last segment that starts at or before p.
fn segment_at(e: Envelope, p: f32) -> u8
    ensures { result ≡ last_segment (envelope_marks e) p }
{
    if e.third <= p {
        return RELEASE;
    }
    if e.second <= p {
        return SUSTAIN;
    }
    if e.first <= p {
        return DECAY;
    }
    ATTACK
}

// Sample i, of those from 0 to `last`, goes by its position.
fn caption_of(e: Envelope, i: u16, last: u16) -> u8
    ensures { result ≡ caption_of (envelope_marks e) (last + 1) i }
{
    segment_at(e, sample_position(i, last))
}

fn caption_at(g: Generator, i: u16, last: u16) -> u8
    ensures { result ≡ caption_at g.shape (last + 1) i }
{
    let shape = g.shape;
    match shape {
        Shape::Envelope(e) => caption_of(e, i, last),
        Shape::Fade(_) => NO_CAPTION,
        Shape::Lfo(_) => NO_CAPTION,
        Shape::Filter(_) => NO_CAPTION,
        Shape::Oscillator(_) => NO_CAPTION,
        Shape::Noise(_) => NO_CAPTION,
    }
}

// Every caption of a slice whose length fits.
fn write_captions(g: Generator, out: &mut [u8])
    requires { (2 ≤ length out.old) × (length out.old ≤ 4096) }
    ensures { out.new ≡ written (caption_at g.shape (length out.old)) (length out.old) out.old }
{
    let n = out.len();
    let last = (n - 1) as u16;
    for i in 0..n {
        out[i] = caption_at(g, i as u16, last);
    }
}

// Writes the caption of each sample. A slice of another length than a strip's is left as it was.
pub fn captions(g: Generator, out: &mut [u8]) -> Result<(), WrongLength>
    ensures { (result ≡ answer_of (length out.old)) × (out.new ≡ captions_of g.shape out.old) }
{
    if !fits(out.len()) {
        return Err(WrongLength);
    }
    write_captions(g, out);
    Ok(())
}
