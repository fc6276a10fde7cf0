// The fade of an LFO: a straight rise, then full depth.
#![tactic(auto)]

ghost use Rattle.std.specs.Prelude.{◌≡◌};
ghost use Rattle.fade.specs.Formula.{fade_level_of, fade_height_of};

use curve::{Height, drawn, position};
use settings::Fade;

// A straight rise to the end, then full depth.
fn fade_level(fade: Fade, t: f32) -> f32
    ensures { result ≡ fade_level_of fade t }
{
    let end = fade.end;
    if t < end {
        return t / end;
    }
    1.0
}

// The height of a fade.
pub fn fade_height(fade: Fade, t: f32) -> Height
    ensures { result ≡ fade_height_of fade t }
{
    drawn(fade_level(fade, position(t)))
}
