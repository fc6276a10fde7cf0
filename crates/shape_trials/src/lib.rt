// Every shape byte of LFO 1, slew 0, at 65 positions.
#![tactic(auto)]

ghost use Rattle.std.specs.Prelude.{◌≡◌, ◌≤◌};
ghost use Rattle.shape_trials.specs.Shapes.{word_at, differs_at, differing, shape_trial, unnamed_trial, named_trial};

use float_bits::word_of;
use inputs::{input_height, lfo_input, part_bits};
use trials::{Trial, no_trial};

// The bits of a shape byte's height at position i of 64.
#[tactic(auto, unfolding(crate::specs::Shapes::word_at))]
fn word_at(shape: u32, i: u16) -> u32
    ensures { result ≡ word_at shape i }
{
    let h = input_height(lfo_input(shape, 0, part_bits(i, 64)));
    word_of(h.height)
}

// 1 where two shape bytes have heights of different bits at position i, else 0.
#[tactic(auto, unfolding(crate::specs::Shapes::differs_at))]
fn differs(a: u32, b: u32, i: u16) -> u16
    ensures { (result ≡ differs_at a b i) × (result ≤ 1) }
{
    (word_at(a, i) != word_at(b, i)) as u16
}

// At how many of the positions they have.
#[tactic(auto, using(crate::proofs::Positions::none_compared, crate::proofs::Positions::one_compared))]
fn count_differing(a: u32, b: u32) -> u16
    ensures { result ≡ differing a b 65 }
{
    let mut count: u16 = 0;
    for i in 0..65 {
        count += differs(a, b, i);
    }
    count
}

#[tactic(auto, unfolding(crate::specs::Shapes::shape_trial))]
fn shape_trial(right: bool, shape: u32) -> Trial
    ensures { result ≡ shape_trial right shape }
{
    Trial {
        right,
        values: 65,
        input: lfo_input(shape, 0, 0),
    }
}

// The bytes from 7 on name no shape, and are Sine's.
#[tactic(auto, unfolding(crate::specs::Shapes::unnamed_trial))]
pub fn unnamed_trial(n: u16) -> Trial
    ensures { result ≡ unnamed_trial n }
{
    let shape = 7 + n as u32;
    shape_trial(count_differing(shape, 0) == 0, shape)
}

// Each two of the seven named shapes differ somewhere: the pair n has the shapes n / 7 and n % 7, where the first is the lower.
#[tactic(auto, unfolding(crate::specs::Shapes::named_trial))]
pub fn named_trial(n: u16) -> Trial
    ensures { result ≡ named_trial n }
{
    let a = (n / 7) as u32;
    let b = (n % 7) as u32;
    if a < b {
        return shape_trial(0 < count_differing(a, b), b);
    }
    no_trial()
}
