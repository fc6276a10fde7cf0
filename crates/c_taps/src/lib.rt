// Taps for C callers, which lend them as two arrays.
#![tactic(auto)]

ghost use Rattle.std.specs.Prelude.{◌≡◌, Ok};
ghost use Rattle.taps.specs.Promises.{TapsAnswered};
ghost use Rattle.c_results.specs.Promises.{Returned};
ghost use Rattle.c_heights.specs.Results.{height_result};
ghost use Rattle.mark_numbers.specs.Results.{MarksNumbers};
ghost use Rattle.c_taps.specs.Results.{taps_of, taps_answer};

use c_heights::height_result;
use c_results::{CountResult, HeightResult};
use mark_numbers::copy_marks;
use marks::MAX_MARKS;
use taps::{MAX_TAPS, Taps};

fn taps_of(at: &[f32; MAX_TAPS], tall: &[f32; MAX_TAPS], used: u32) -> Taps
    ensures { result ≡ taps_of at.now tall.now used }
{
    Taps {
        at: [at[0], at[1], at[2], at[3]],
        tall: [tall[0], tall[1], tall[2], tall[3]],
        used: used as usize,
    }
}

pub fn taps_height(at: &[f32; MAX_TAPS], tall: &[f32; MAX_TAPS], used: u32, t: f32) -> HeightResult
    ensures { Returned (λ h. result ≡ height_result (Ok h)) (TapsAnswered (taps_of at.now tall.now used) t) }
{
    let h = taps::taps_height(taps_of(at, tall, used), t);
    height_result(Ok(h))
}

pub fn taps_marks(
    at: &[f32; MAX_TAPS],
    tall: &[f32; MAX_TAPS],
    used: u32,
    mark_at: &mut [f32; MAX_MARKS],
    kind: &mut [u8; MAX_MARKS],
) -> CountResult
    ensures { MarksNumbers (taps_answer (taps_of at.now tall.now used)) mark_at.old mark_at.new kind.old kind.new result }
{
    let marks = tap_marks::taps_marks(taps_of(at, tall, used));
    copy_marks(Ok(marks), mark_at, kind)
}
