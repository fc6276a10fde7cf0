// A curve byte for C callers: what crate curve_finder answers, as numbers.
#![tactic(auto)]

ghost use Rattle.std.specs.Prelude.{◌≡◌};
ghost use Rattle.curve_finder.specs.Promises.{CurveAnswered};
ghost use Rattle.c_results.specs.Promises.{Returned};
ghost use Rattle.c_curve.specs.Results.{curve_result};

use c_results::CurveResult;
use curve_finder::Search;
use refusals::{Refusal, refusal_number};

#[tactic(auto, unfolding(crate::specs::Results::curve_result, crate::specs::Results::search_result))]
fn curve_result(answer: Result<Search, Refusal>) -> CurveResult
    ensures { result ≡ curve_result answer }
{
    match answer {
        Ok(search) => CurveResult {
            refusal: 0,
            found: search.byte.is_some() as u32,
            byte: search.byte.unwrap_or(0) as u32,
            tried: search.tried,
        },
        Err(why) => CurveResult {
            refusal: refusal_number(why),
            found: 0,
            byte: 0,
            tried: 0,
        },
    }
}

pub fn curve_for_end(sustain: u8, wanted: f32) -> CurveResult
    ensures { Returned (λ a. result ≡ curve_result a) (CurveAnswered sustain wanted) }
{
    curve_result(curve_finder::curve_for_end(sustain, wanted))
}
