// A number from 0 to 1 as text, in nine places.
#![tactic(auto)]

ghost use Rattle.text.specs.Text.{Puts};
ghost use Rattle.nine_places.specs.Places.{nine_places};

use fixed_point::nearest;
use numerals::put_fixed;
use text::Writer;

const BILLION: u32 = 1_000_000_000;

#[tactic(auto, unfolding(crate::specs::Places::nine_places))]
pub fn put_nine_places(out: &mut Writer, x: f32)
    ensures { Puts out.old (nine_places x) out.new }
{
    put_fixed(out, nearest(x, BILLION), 9);
}
