// The C interface, include/juvrada.h, for callers in another language. A slice is a pointer and a length, an answer a struct of numbers. Each function calls the one of its
// name that makes those numbers.
#![tactic(auto)]

ghost use Rattle.std.specs.Prelude.{◌≡◌, Ok};
ghost use Rattle.bends.specs.Formula.{Charted};
ghost use Rattle.taps.specs.Promises.{TapsAnswered};
ghost use Rattle.refusals.specs.Refusals.{answer_refusal};
ghost use Rattle.block.specs.Promises.{HeightAnswered};
ghost use Rattle.block_strip.specs.Promises.{StripAnswered};
ghost use Rattle.block_strip_once.specs.Promises.{StripOnceAnswered};
ghost use Rattle.block_captions.specs.Promises.{CaptionsAnswered};
ghost use Rattle.block_choice.specs.Promises.{Answered};
ghost use Rattle.block_turns.specs.Promises.{TurnsAnswered, HeightTurnsAnswered};
ghost use Rattle.block_strip_turns.specs.Promises.{StripTurnsAnswered, StripOnceTurnsAnswered};
ghost use Rattle.block_settings.specs.Answers.{settings_answer};
ghost use Rattle.block_marks.specs.Answers.{marks_answer};
ghost use Rattle.block_generator.specs.Answers.{rest_answer, scale_answer, anchored_answer};
ghost use Rattle.block_gates.specs.Answers.{gates_answer, bars_answer};
ghost use Rattle.block_gates.specs.Promises.{GatesAnswered};
ghost use Rattle.curve_finder.specs.Promises.{CurveAnswered};
ghost use Rattle.c_results.specs.Promises.{Returned};
ghost use Rattle.c_heights.specs.Results.{height_result};
ghost use Rattle.c_strip.specs.Results.{strip_result};
ghost use Rattle.c_generator.specs.Results.{rest_result, scale_result, anchored_result};
ghost use Rattle.c_settings.specs.Results.{settings_result, settings_after};
ghost use Rattle.mark_numbers.specs.Results.{MarksNumbers};
ghost use Rattle.gate_numbers.specs.Results.{GatesNumbers};
ghost use Rattle.c_curve.specs.Results.{curve_result};
ghost use Rattle.c_taps.specs.Results.{taps_of, taps_answer};

use c_results::{
    AnchoredResult, CountResult, CurveResult, HeightResult, RestResult, ScaleResult, StripResult,
};
use gates::GATES_DRAWN;
use marks::MAX_MARKS;
use settings_numbers::MAX_SETTINGS;
use taps::MAX_TAPS;

#[unsafe(no_mangle)]
pub extern "C" fn juvrada_height(block: &[u8], code: u32, t: f32) -> HeightResult
    ensures { Returned (λ a. result ≡ height_result a) (HeightAnswered block.now code t) }
{
    c_heights::height(block, code, t)
}

#[unsafe(no_mangle)]
pub extern "C" fn juvrada_strip(block: &[u8], code: u32, out: &mut [f32]) -> StripResult
    ensures { Returned (λ a. result ≡ strip_result a) (StripAnswered block.now code out.old out.new) }
{
    c_strip::strip(block, code, out)
}

#[unsafe(no_mangle)]
pub extern "C" fn juvrada_strip_once(block: &[u8], code: u32, out: &mut [f32]) -> StripResult
    ensures { Returned (λ a. result ≡ strip_result a) (StripOnceAnswered block.now code out.old out.new) }
{
    c_strip::strip_once(block, code, out)
}

#[unsafe(no_mangle)]
pub extern "C" fn juvrada_marks(
    block: &[u8],
    code: u32,
    at: &mut [f32; MAX_MARKS],
    kind: &mut [u8; MAX_MARKS],
) -> CountResult
    ensures { Returned (λ a. MarksNumbers a at.old at.new kind.old kind.new result) (Answered marks_answer block.now code) }
{
    c_marks::marks(block, code, at, kind)
}

#[unsafe(no_mangle)]
pub extern "C" fn juvrada_rest(block: &[u8], code: u32) -> RestResult
    ensures { Returned (λ a. result ≡ rest_result a) (Answered rest_answer block.now code) }
{
    c_generator::rest(block, code)
}

#[unsafe(no_mangle)]
pub extern "C" fn juvrada_scale(block: &[u8], code: u32) -> ScaleResult
    ensures { Returned (λ a. result ≡ scale_result a) (Answered scale_answer block.now code) }
{
    c_generator::scale(block, code)
}

#[unsafe(no_mangle)]
pub extern "C" fn juvrada_anchored(block: &[u8], code: u32) -> AnchoredResult
    ensures { Returned (λ a. result ≡ anchored_result a) (Answered anchored_answer block.now code) }
{
    c_generator::anchored(block, code)
}

#[unsafe(no_mangle)]
pub extern "C" fn juvrada_settings(
    block: &[u8],
    code: u32,
    out: &mut [f32; MAX_SETTINGS],
) -> CountResult
    ensures { Returned (λ a. (result ≡ settings_result a) × (out.new ≡ settings_after a out.old)) (Answered settings_answer block.now code) }
{
    c_settings::settings(block, code, out)
}

#[unsafe(no_mangle)]
pub extern "C" fn juvrada_captions(block: &[u8], code: u32, out: &mut [u8]) -> u32
    ensures { Returned (λ a. result ≡ answer_refusal a) (CaptionsAnswered block.now code out.old out.new) }
{
    c_captions::captions(block, code, out)
}

#[unsafe(no_mangle)]
pub extern "C" fn juvrada_gates(
    block: &[u8],
    start: &mut [f32; GATES_DRAWN],
    end: &mut [f32; GATES_DRAWN],
) -> CountResult
    ensures { Returned (λ a. GatesNumbers a start.old start.new end.old end.new result) (GatesAnswered gates_answer block.now) }
{
    c_gates::gates(block, start, end)
}

#[unsafe(no_mangle)]
pub extern "C" fn juvrada_bars(
    block: &[u8],
    start: &mut [f32; GATES_DRAWN],
    end: &mut [f32; GATES_DRAWN],
) -> CountResult
    ensures { Returned (λ a. GatesNumbers a start.old start.new end.old end.new result) (GatesAnswered bars_answer block.now) }
{
    c_gates::bars(block, start, end)
}

#[unsafe(no_mangle)]
pub extern "C" fn juvrada_curve_for_end(sustain: u8, wanted: f32) -> CurveResult
    ensures { Returned (λ a. result ≡ curve_result a) (CurveAnswered sustain wanted) }
{
    c_curve::curve_for_end(sustain, wanted)
}

#[unsafe(no_mangle)]
pub extern "C" fn juvrada_height_turns(block: &[u8], code: u32, turns: u32, t: f32) -> HeightResult
    ensures { Returned (λ a. result ≡ height_result a) (HeightTurnsAnswered block.now code turns t) }
{
    c_heights::height_turns(block, code, turns, t)
}

#[unsafe(no_mangle)]
pub extern "C" fn juvrada_strip_turns(
    block: &[u8],
    code: u32,
    turns: u32,
    out: &mut [f32],
) -> StripResult
    ensures { Returned (λ a. result ≡ strip_result a) (StripTurnsAnswered block.now code turns out.old out.new) }
{
    c_strip_turns::strip_turns(block, code, turns, out)
}

#[unsafe(no_mangle)]
pub extern "C" fn juvrada_strip_once_turns(
    block: &[u8],
    code: u32,
    turns: u32,
    out: &mut [f32],
) -> StripResult
    ensures { Returned (λ a. result ≡ strip_result a) (StripOnceTurnsAnswered block.now code turns out.old out.new) }
{
    c_strip_turns::strip_once_turns(block, code, turns, out)
}

#[unsafe(no_mangle)]
pub extern "C" fn juvrada_marks_turns(
    block: &[u8],
    code: u32,
    turns: u32,
    at: &mut [f32; MAX_MARKS],
    kind: &mut [u8; MAX_MARKS],
) -> CountResult
    ensures { Returned (λ a. MarksNumbers a at.old at.new kind.old kind.new result) (TurnsAnswered marks_answer block.now code turns) }
{
    c_marks::marks_turns(block, code, turns, at, kind)
}

#[unsafe(no_mangle)]
pub extern "C" fn juvrada_scale_turns(block: &[u8], code: u32, turns: u32) -> ScaleResult
    ensures { Returned (λ a. result ≡ scale_result a) (TurnsAnswered scale_answer block.now code turns) }
{
    c_generator::scale_turns(block, code, turns)
}

#[unsafe(no_mangle)]
pub extern "C" fn juvrada_bend(curve: u8) -> f32
    ensures { Charted curve result }
{
    bend::bend(curve)
}

#[unsafe(no_mangle)]
pub extern "C" fn juvrada_taps_height(
    at: &[f32; MAX_TAPS],
    tall: &[f32; MAX_TAPS],
    used: u32,
    t: f32,
) -> HeightResult
    ensures { Returned (λ h. result ≡ height_result (Ok h)) (TapsAnswered (taps_of at.now tall.now used) t) }
{
    c_taps::taps_height(at, tall, used, t)
}

#[unsafe(no_mangle)]
pub extern "C" fn juvrada_taps_marks(
    at: &[f32; MAX_TAPS],
    tall: &[f32; MAX_TAPS],
    used: u32,
    mark_at: &mut [f32; MAX_MARKS],
    kind: &mut [u8; MAX_MARKS],
) -> CountResult
    ensures { MarksNumbers (taps_answer (taps_of at.now tall.now used)) mark_at.old mark_at.new kind.old kind.new result }
{
    c_taps::taps_marks(at, tall, used, mark_at, kind)
}
