// The slew walk of an LFO: its height at a phase, and its steps; or a step at a time, so that one walk serves many phases.
#![tactic(auto)]

ghost use Rattle.std.specs.Prelude.{◌≡◌, ◌≤◌, Float};
ghost use Rattle.curve.specs.Curve.{clamp_unit_of};
ghost use Rattle.walk.specs.Formula.{place_of, limit_of, moved_of, cut_after, walked_of};
ghost use Rattle.walk.specs.Reached.{reached_of, full_on};

use curve::{Height, clamp_unit};
use lfo_shapes::shape_at;
use math::{clamp, min};
use settings::{Lfo, LfoShape};

// A walk starts a cycle before the curve does.
const START: f32 = -1.0;

// It takes 96 steps a cycle.
const STEP: f32 = 1.0 / 96.0;

// The most full steps of a walk.
const MOST: u16 = 65534;

// Where a count's step ends.
fn place(count: u16) -> f32
    ensures { result ≡ place_of count }
{
    START + count as f32 * STEP
}

// A step from one position to the next: toward the shape's level there, by no more than the limit allows over that distance.
fn moved(shape: LfoShape, limit: f32, from: f32, to: f32, level: f32) -> f32
    ensures { result ≡ moved_of shape limit from to level }
{
    let most = limit * (to - from);
    level + clamp(shape_at(shape, to) - level, -most, most)
}

// How far the level may move in a cycle.
pub fn limit_of(slew: f32) -> f32
    ensures { result ≡ limit_of slew }
{
    2.0 / slew
}

// A walk on its way: the full steps behind it, where the last of them ends, and the level there.
#[derive(Clone, Copy)]
pub struct Walk {
    pub full: u16,
    pub place: f32,
    pub level: f32,
}

// A walk that has taken no step.
pub fn start(shape: LfoShape) -> Walk
    ensures { (limit : Float) → result ≡ reached_of shape limit 0 }
{
    Walk {
        full: 0,
        place: START,
        level: shape_at(shape, START),
    }
}

// The walk goes on, a full step at a time, as long as the next one ends short of the phase.
pub fn walk_on(shape: LfoShape, limit: f32, walk: Walk, phase: f32) -> Walk
    requires { (walk.full ≤ 65534) × (walk ≡ reached_of shape limit walk.full) }
    ensures { result ≡ reached_of shape limit (full_on phase walk.full) }
{
    let mut on = walk;
    for full in walk.full..MOST {
        let at = place(full + 1);
        if phase <= at {
            break;
        }
        on = Walk {
            full: full + 1,
            place: at,
            level: moved(shape, limit, on.place, at, on.level),
        };
    }
    on
}

// The height at a phase that the next step reaches: that step, cut there. The walk stays where it is.
pub fn cut_height(shape: LfoShape, limit: f32, walk: Walk, phase: f32) -> f32
    requires { (walk.full ≤ 65534) × (walk ≡ reached_of shape limit walk.full) }
    ensures { result ≡ clamp_unit_of (cut_after shape limit phase walk.full) }
{
    let full = walk.full;
    let at = min(place(full + 1), phase);
    clamp_unit(moved(shape, limit, walk.place, at, walk.level))
}

// The height at a phase, of a walk from the start whose last step is cut there.
pub fn walked(lfo: Lfo, phase: f32) -> Height
    ensures { result ≡ walked_of lfo phase }
{
    let shape = lfo.shape;
    let limit = limit_of(lfo.slew);
    let walk = walk_on(shape, limit, start(shape), phase);
    let steps = walk.full as u32 + 1;
    Height {
        height: cut_height(shape, limit, walk, phase),
        steps,
    }
}
