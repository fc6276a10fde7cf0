// The marks on a panel, each in its row.
#![tactic(auto)]

ghost use Rattle.std.specs.Prelude.{◌≡◌, ◌<◌};
ghost use Rattle.text.specs.Text.{Puts};
ghost use Rattle.panel_marks.specs.Marks.{cycle_row, row_of, marks_text};

use mark_rules::put_mark;
use marks::{MAX_MARKS, MarkKind, Marks};
use text::Writer;

// The row of cycle mark k: of up to six marks the fourth, of more the third and the fourth in turn, for the words of eight cycles have no room beside each other.
fn cycle_row(count: usize, k: usize) -> usize
    ensures { (result ≡ cycle_row count k) × (result < 8) }
{
    if count <= 6 {
        return 3;
    }
    2 + k % 2
}

// The row of mark k of so many.
fn row(count: usize, k: usize, kind: MarkKind) -> usize
    requires { k < 8 }
    ensures { (result ≡ row_of count k kind) × (result < 8) }
{
    match kind {
        MarkKind::Segment(_) => k,
        MarkKind::Corner => k,
        MarkKind::Cycle => cycle_row(count, k),
        MarkKind::Tap => k,
        MarkKind::Width => k,
        MarkKind::Sweep => k,
    }
}

pub fn put_marks(out: &mut Writer, marks: Marks)
    ensures { Puts out.old (marks_text marks) out.new }
{
    for i in 0..marks.count.min(MAX_MARKS) {
        let mark = marks.places[i];
        put_mark(out, row(marks.count, i, mark.kind), mark);
    }
}
