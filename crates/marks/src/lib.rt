// Marks: where along the horizontal of a picture something happens, and what. A record of at most eight, the marks of each family, and the numbers of their kinds.
#![tactic(auto)]

ghost use Rattle.std.specs.Prelude.{◌≡◌};
ghost use Rattle.marks.specs.Marks.{segment_number, kind_number, no_marks, mark_of, pushed, pushed_all, stored, cycles_of, envelope_marks, fade_marks, pulse_marks, oscillator_marks};

use settings::{Envelope, Fade, Oscillator};

// The segments of an envelope, in their order.
#[derive(Clone, Copy)]
pub enum Segment {
    Attack,
    Decay,
    Sustain,
    Release,
}

// What is at a mark: the start of a segment, a filter's corner, the end of a cycle, a tap, a pulse's falling edge, or an end of that edge's sweep.
#[derive(Clone, Copy)]
pub enum MarkKind {
    Segment(Segment),
    Corner,
    Cycle,
    Tap,
    Width,
    Sweep,
}

#[derive(Clone, Copy)]
pub struct Mark {
    pub at: f32,
    pub kind: MarkKind,
}

// The most marks that a shape has.
pub const MAX_MARKS: usize = 8;

// The first `count` places are marks; the others all hold one mark, which says nothing.
#[derive(Clone, Copy)]
pub struct Marks {
    pub places: [Mark; MAX_MARKS],
    pub count: usize,
}

// ---- marks
pub fn no_marks() -> Marks
    ensures { result ≡ no_marks }
{
    let unused = Mark {
        at: 0.0,
        kind: MarkKind::Corner,
    };
    Marks {
        places: [unused; MAX_MARKS],
        count: 0,
    }
}

// One mark more; a full record stays as it is.
pub fn push(marks: Marks, at: f32, kind: MarkKind) -> Marks
    ensures { result ≡ pushed marks (mark_of at kind) }
{
    let n = marks.count;
    if n < MAX_MARKS {
        let mut more = marks;
        more.places[n] = Mark { at, kind };
        more.count = n + 1;
        return more;
    }
    marks
}

pub fn envelope_marks(e: Envelope) -> Marks
    ensures { result ≡ stored (envelope_marks e) }
{
    let attack = push(no_marks(), 0.0, MarkKind::Segment(Segment::Attack));
    let decay = push(attack, e.first, MarkKind::Segment(Segment::Decay));
    let sustain = push(decay, e.second, MarkKind::Segment(Segment::Sustain));
    push(sustain, e.third, MarkKind::Segment(Segment::Release))
}

pub fn fade_marks(f: Fade) -> Marks
    ensures { result ≡ stored (fade_marks f) }
{
    let attack = push(no_marks(), 0.0, MarkKind::Segment(Segment::Attack));
    push(attack, f.end, MarkKind::Segment(Segment::Sustain))
}

// The end of each cycle, as a part of all the turns.
pub fn cycles(marks: Marks, turns: f32) -> Marks
    ensures { result ≡ pushed_all marks (cycles_of turns) }
{
    let mut ends = marks;
    for count in 1..=255u8 {
        let cycle = count as f32;
        if cycle > turns {
            return ends;
        }
        ends = push(ends, cycle / turns, MarkKind::Cycle);
    }
    ends
}

// A pulse's width, and the two ends of its sweep where it is swept.
fn pulse_marks(o: Oscillator) -> Marks
    ensures { result ≡ stored (pulse_marks o) }
{
    if o.pulse {
        let width = push(no_marks(), o.width, MarkKind::Width);
        if o.sweep > 0.0 {
            let from = push(width, o.width - o.sweep, MarkKind::Sweep);
            return push(from, o.width + o.sweep, MarkKind::Sweep);
        }
        return width;
    }
    no_marks()
}

pub fn oscillator_marks(o: Oscillator) -> Marks
    ensures { result ≡ stored (oscillator_marks o) }
{
    cycles(pulse_marks(o), 1.0)
}

// ---- enums as numbers
pub fn segment_number(segment: Segment) -> u8
    ensures { result ≡ segment_number segment }
{
    match segment {
        Segment::Attack => 0,
        Segment::Decay => 1,
        Segment::Sustain => 2,
        Segment::Release => 3,
    }
}

pub fn kind_number(kind: MarkKind) -> u8
    ensures { result ≡ kind_number kind }
{
    match kind {
        MarkKind::Segment(s) => segment_number(s),
        MarkKind::Corner => 4,
        MarkKind::Cycle => 5,
        MarkKind::Tap => 6,
        MarkKind::Width => 7,
        MarkKind::Sweep => 8,
    }
}
