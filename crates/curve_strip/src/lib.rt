// The strips of the curves that take no steps: one loop fills them all. The caller has tested the length.
#![tactic(auto, unfolding(shape_heights::specs::Heights::height_of))]

ghost use Rattle.std.specs.Prelude.{◌≡◌, ◌≤◌, length, Float};
ghost use Rattle.curve.specs.Curve.{position_of};
ghost use Rattle.generator.specs.declared.Shape.{Shape};
ghost use Rattle.shape_heights.specs.Heights.{height_of};
ghost use Rattle.strip.specs.Strip.{filled_of, step_sum};
ghost use Rattle.strip.proofs.Stepless.{no_steps};

use envelope::{envelope_height, envelope_sample};
use fade::fade_height;
use filter::filter_sample;
use generator::Shape;
use noise::noise_sample;
use oscillator::oscillator_height;
use settings::{Envelope, Fade, Filter, Noise, Oscillator};
use strip::{last_of, sample_position};

// The curve of a shape that takes no steps. Its height at a sample's position, which lies from 0 to 1 and is not clamped.
pub trait Curve: Copy {
    ghost shape: { Self → Shape };

    fn sample(self, t: f32) -> f32
        ensures { position_of t ≡ t → result ≡ (height_of (shape self) t).height };

    ghost stepless: { (c : Self) (t : Float) → (height_of (shape c) t).steps ≡ 0 };
}

// Fills a strip, and answers the sum of the steps, which is 0.
pub fn fill_curve<C: Curve>(curve: C, out: &mut [f32]) -> u32
    requires { (2 ≤ length out.old) × (length out.old ≤ 4096) }
    ensures { (result ≡ step_sum (C.shape curve) (length out.old) (length out.old)) × (out.new ≡ filled_of (C.shape curve) (length out.old) (length out.old) out.old) }
{
    let n = out.len();
    let last = last_of(n);
    for i in 0..n {
        out[i] = curve.sample(sample_position(i as u16, last));
    }
    0
}

// ---- an envelope
// From how many samples on an envelope's are computed several at once.
pub const WIDE_SAMPLES: usize = 16;

impl Curve for Envelope {
    ghost shape = { λ e. Shape.Envelope e };

    ghost stepless = { λ e t. no_steps (Shape.Envelope e) tt t };

    fn sample(self, t: f32) -> f32 {
        envelope_height(self, t).height
    }
}

// Several samples at once, which takes more preparation than a few of them are worth.
#[derive(Clone, Copy)]
pub struct Wide(pub Envelope);

impl Curve for Wide {
    ghost shape = { λ w. Shape.Envelope w.0 };

    ghost stepless = { λ w t. no_steps (Shape.Envelope w.0) tt t };

    fn sample(self, t: f32) -> f32 {
        envelope_sample(self.0, t)
    }
}

// ---- an LFO's fade
impl Curve for Fade {
    ghost shape = { λ f. Shape.Fade f };

    ghost stepless = { λ f t. no_steps (Shape.Fade f) tt t };

    fn sample(self, t: f32) -> f32 {
        fade_height(self, t).height
    }
}

// ---- what is heard: a filter, an oscillator, a noise
impl Curve for Filter {
    ghost shape = { λ f. Shape.Filter f };

    ghost stepless = { λ f t. no_steps (Shape.Filter f) tt t };

    fn sample(self, t: f32) -> f32 {
        filter_sample(self, t)
    }
}

impl Curve for Oscillator {
    ghost shape = { λ o. Shape.Oscillator o };

    ghost stepless = { λ o t. no_steps (Shape.Oscillator o) tt t };

    fn sample(self, t: f32) -> f32 {
        oscillator_height(self, t).height
    }
}

impl Curve for Noise {
    ghost shape = { λ n. Shape.Noise n };

    ghost stepless = { λ n t. no_steps (Shape.Noise n) tt t };

    fn sample(self, t: f32) -> f32 {
        noise_sample(self, t)
    }
}
