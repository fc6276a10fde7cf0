// A strip: a lent slice of heights, from the left edge of a curve to its right edge. Where its samples lie, and which lengths fit. The loops that fill one stand in the
// crates above, one for each family, so that the family is matched once and not at every sample.
#![tactic(auto)]

ghost use Rattle.std.specs.Prelude.{◌≡◌, ◌-◌, ◌≤◌};
ghost use Rattle.strip.specs.Strip.{part_of, length_fits};

use math::from_u16;

// The shortest strip and the longest.
pub const MIN_SAMPLES: usize = 2;

pub const MAX_SAMPLES: usize = 4096;

// Where sample i lies, of those from 0 to `last`.
pub fn sample_position(i: u16, last: u16) -> f32
    ensures { result ≡ part_of i last }
{
    i as f32 / from_u16(last)
}

// The number of the last of n samples.
pub fn last_of(n: usize) -> u16
    requires { (2 ≤ n) × (n ≤ 4096) }
    ensures { result ≡ n - 1 }
{
    (n - 1) as u16
}

// Whether a strip may have n samples.
pub fn fits(n: usize) -> bool
    ensures { result ≡ length_fits n }
{
    MIN_SAMPLES <= n && n <= MAX_SAMPLES
}
