// The marks of an answer as numbers in two lent arrays.
#![tactic(auto)]

ghost use Rattle.std.specs.Prelude.{◌≡◌};
ghost use Rattle.lists.specs.Written.{written};
ghost use Rattle.mark_numbers.specs.Results.{mark_position, mark_kind, marks_used, MarksNumbers};

use c_results::CountResult;
use marks::{MAX_MARKS, Marks, kind_number};
use refusals::{Refusal, refusal_number};

// ---- the first places are written, the others stay
fn marks_used(marks: Marks) -> usize
    ensures { result ≡ marks_used marks }
{
    marks.count.min(MAX_MARKS)
}

fn copy_mark_positions(marks: Marks, out: &mut [f32; MAX_MARKS])
    ensures { out.new ≡ written (mark_position marks) (marks_used marks) out.old }
{
    for i in 0..marks_used(marks) {
        out[i] = marks.places[i].at;
    }
}

fn copy_mark_kinds(marks: Marks, out: &mut [u8; MAX_MARKS])
    ensures { out.new ≡ written (mark_kind marks) (marks_used marks) out.old }
{
    for i in 0..marks_used(marks) {
        out[i] = kind_number(marks.places[i].kind);
    }
}

// The marks of an answer.
pub fn copy_marks(
    found: Result<Marks, Refusal>,
    at: &mut [f32; MAX_MARKS],
    kind: &mut [u8; MAX_MARKS],
) -> CountResult
    ensures { MarksNumbers found at.old at.new kind.old kind.new result }
{
    match found {
        Ok(marks) => {
            copy_mark_positions(marks, at);
            copy_mark_kinds(marks, kind);
            CountResult {
                refusal: 0,
                count: marks_used(marks) as u32,
            }
        }
        Err(why) => CountResult {
            refusal: refusal_number(why),
            count: 0,
        },
    }
}
