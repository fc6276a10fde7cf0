// The words of a sheet: the titles of its panels, the names of segments, and what a byte stands for. Each is one of some words in a row.
#![tactic(auto)]

ghost use Rattle.text.specs.Text.{Puts};
ghost use Rattle.labels.specs.Titles.{title_of, segment_name};
ghost use Rattle.labels.specs.Notes.{switch_note, shape_note, poles_note, source_note, depth_note};

use text::Writer;
use words::put_word;

// The title of a panel, as wide as its column: a generator's by its code's number, then the arpeggio's.
pub fn put_title(out: &mut Writer, k: u8)
    ensures { Puts out.old (title_of k) out.new }
{
    put_word(
        out,
        b"VCA envelope     |VCF envelope     |Mod envelope     |LFO 1            |LFO 2            |LFO 1 unipolar   |LFO 2 unipolar   |LFO 1 fade       |LFO 2 fade       |Low-pass filter  |High-pass filter |Oscillator 1     |Oscillator 2     |Noise            |Arpeggio gate    ",
        k as usize,
    );
}

// The name of a segment, by its number.
pub fn put_segment(out: &mut Writer, k: u8)
    ensures { Puts out.old (segment_name k) out.new }
{
    put_word(out, b"Attack|Decay|Sustain|Release", k as usize);
}

// ---- what a byte stands for
pub fn put_switch(out: &mut Writer, b: u8)
    ensures { Puts out.old (switch_note b) out.new }
{
    put_word(out, b"off|on", b as usize);
}

pub fn put_shape(out: &mut Writer, b: u8)
    ensures { Puts out.old (shape_note b) out.new }
{
    put_word(
        out,
        b"Sine|Triangle|Square|Ramp up|Ramp down|Sample and hold|Sample and glide|Sine, unnamed",
        b as usize,
    );
}

pub fn put_poles(out: &mut Writer, b: u8)
    ensures { Puts out.old (poles_note b) out.new }
{
    put_word(out, b"4 poles|2 poles|4 poles, unnamed", b as usize);
}

pub fn put_source(out: &mut Writer, b: u8)
    ensures { Puts out.old (source_note b) out.new }
{
    put_word(
        out,
        b"Manual|LFO 1|LFO 2|VCA envelope|VCF envelope|Mod envelope|Manual, unnamed",
        b as usize,
    );
}

pub fn put_depth(out: &mut Writer, source: u8)
    ensures { Puts out.old (depth_note source) out.new }
{
    put_word(
        out,
        b"width|sweep|sweep|sweep|sweep|sweep|width",
        source as usize,
    );
}
