// An envelope's height: attack, decay, sustain and release, each a stretch between two ends.
#![tactic(auto)]

ghost use Rattle.std.specs.Prelude.{◌≡◌};
ghost use Rattle.envelope.specs.Formula.{divide_of, bent_of, attack_of, decay_of, sustain_of, release_of, of_stretch, envelope_level_of, envelope_height_of};

use curve::{Height, clamp_unit, drawn, position};
use settings::Envelope;

// Where t lies between two ends, from 0 to 1. In a stretch of no width it is 0.
fn divide(t: f32, from: f32, to: f32) -> f32
    ensures { result ≡ divide_of t from to }
{
    let width = to - from;
    if width <= 0.0 {
        return 0.0;
    }
    clamp_unit((t - from) / width)
}

// A position along a stretch, bent by k: as it is where k is 1, and fixed at both ends.
fn bent(u: f32, k: f32) -> f32
    ensures { result ≡ bent_of u k }
{
    let u = clamp_unit(u);
    let denominator = u + k * (1.0 - u);
    if denominator <= 0.0 {
        return u;
    }
    u / denominator
}

// From 0 to 1.
fn attack(envelope: Envelope, t: f32) -> f32
    ensures { result ≡ attack_of envelope t }
{
    bent(divide(t, 0.0, envelope.first), envelope.attack_bend)
}

// From 1 to the sustain level.
fn decay(envelope: Envelope, t: f32) -> f32
    ensures { result ≡ decay_of envelope t }
{
    let u = bent(
        divide(t, envelope.first, envelope.second),
        envelope.decay_bend,
    );
    1.0 + (envelope.sustain - 1.0) * u
}

// From the sustain level to the level that it slopes to.
fn sustain(envelope: Envelope, t: f32) -> f32
    ensures { result ≡ sustain_of envelope t }
{
    let u = divide(t, envelope.second, envelope.third);
    envelope.sustain + (envelope.sustain_end - envelope.sustain) * u
}

// From there to 0.
fn release(envelope: Envelope, t: f32) -> f32
    ensures { result ≡ release_of envelope t }
{
    let u = bent(divide(t, envelope.third, 1.0), envelope.release_bend);
    envelope.sustain_end * (1.0 - u)
}

// The level at t: that of the first stretch whose end t is below, and past the third end the release.
fn level(envelope: Envelope, t: f32) -> f32
    ensures { result ≡ envelope_level_of envelope t }
{
    if t < envelope.first {
        return attack(envelope, t);
    }
    if t < envelope.second {
        return decay(envelope, t);
    }
    if t < envelope.third {
        return sustain(envelope, t);
    }
    release(envelope, t)
}

// The height at any f32.
pub fn envelope_height(envelope: Envelope, t: f32) -> Height
    ensures { result ≡ envelope_height_of envelope t }
{
    drawn(level(envelope, position(t)))
}

// ---- the same for the samples of a strip, with no branch: so a strip's loop computes several samples at once
// Of four numbers that of the stretch in which t lies.
fn of_stretch(e: Envelope, t: f32, attack: f32, decay: f32, sustain: f32, release: f32) -> f32
    ensures { result ≡ of_stretch e t attack decay sustain release }
{
    if t < e.first {
        return attack;
    }
    if t < e.second {
        return decay;
    }
    if t < e.third {
        return sustain;
    }
    release
}

// The level as one formula, over the ends and the bend of the stretch in which t lies.
fn level_by_stretch(e: Envelope, t: f32) -> f32
    ensures { result ≡ envelope_level_of e t }
{
    let from = of_stretch(e, t, 0.0, e.first, e.second, e.third);
    let to = of_stretch(e, t, e.first, e.second, e.third, 1.0);
    let bend = of_stretch(e, t, e.attack_bend, e.decay_bend, 1.0, e.release_bend);
    let u = divide(t, from, to);
    let y = bent(u, bend);
    of_stretch(
        e,
        t,
        y,
        1.0 + (e.sustain - 1.0) * y,
        e.sustain + (e.sustain_end - e.sustain) * u,
        e.sustain_end * (1.0 - y),
    )
}

// A sample's height. It has one caller, the loop of a strip, and so becomes a part of it.
pub fn envelope_sample(envelope: Envelope, t: f32) -> f32
    ensures { result ≡ (envelope_height_of envelope t).height }
{
    clamp_unit(level_by_stretch(envelope, position(t)))
}
