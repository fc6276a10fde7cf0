// How far two curves are apart where they are farthest, and at which sample.
#![tactic(auto)]

ghost use Rattle.std.specs.Prelude.{◌≡◌, ◌<◌, length};
ghost use Rattle.largest_difference.specs.Largest.{compared_samples, heights_of, difference_at, larger_of, largest_of};

use math::abs;

// At how many samples two curves are held against each other.
pub const SAMPLES: usize = 1025;

// How far two curves are apart where they are farthest, and the number of the first such sample.
#[derive(Clone, Copy)]
pub struct Largest {
    pub size: f32,
    pub index: u16,
}

fn difference(old: &[f32], new: &[f32], i: usize) -> f32
    requires { (i < length old.now) × (i < length new.now) }
    ensures { result ≡ difference_at (heights_of old.now) (heights_of new.now) i }
{
    abs(old[i] - new[i])
}

fn larger(found: Largest, size: f32, i: u16) -> Largest
    ensures { result ≡ larger_of found size i }
{
    if found.size < size {
        return Largest { size, index: i };
    }
    found
}

// Of two strips, a height for each sample.
pub fn find_largest(old: &[f32], new: &[f32]) -> Largest
    requires { (length old.now ≡ compared_samples) × (length new.now ≡ compared_samples) }
    ensures { result ≡ largest_of (heights_of old.now) (heights_of new.now) compared_samples }
{
    let mut found = Largest {
        size: 0.0,
        index: 0,
    };
    for i in 0..SAMPLES {
        let size = difference(old, new, i);
        found = larger(found, size, i as u16);
    }
    found
}
