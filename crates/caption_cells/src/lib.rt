// Where the cells of an envelope's captions stand below its frame.
#![tactic(auto)]

ghost use Rattle.std.specs.Prelude.{◌≡◌, ◌+◌, ◌≤◌, ◌<◌};
ghost use Rattle.caption_cells.specs.Cells.{before_of, samples_before, start_of, cell_end};

use panel_line::SAMPLES;

// The width of a frame, that of a sample's step across it, and the least width of a cell, which a letter fits in; in hundredths of a millimetre.
const FRAME: usize = 5000;

const STEP: usize = 10;

const LETTER: u64 = 220;

// 1 for a caption of a segment before k, and 0 for another.
fn counted(caption: u8, k: u8) -> usize
    ensures { (result ≡ before_of caption k) × (result ≤ 1) }
{
    if caption < k {
        return 1;
    }
    0
}

// How many samples are of a segment before k.
fn samples_before(captions: &[u8; SAMPLES], k: u8) -> usize
    ensures { (result ≡ samples_before k captions.now 501) × (result ≤ 501) }
{
    let mut count: usize = 0;
    for caption in captions {
        count += counted(*caption, k);
    }
    count
}

// Where the samples from segment k on start.
pub fn start_of(captions: &[u8; SAMPLES], k: u8) -> u64
    ensures { (result ≡ start_of captions.now k) × (result ≤ 5000) }
{
    (STEP * samples_before(captions, k)).min(FRAME) as u64
}

// The right edge of segment k's cell, and `left` where it has none.
pub fn cell_end(captions: &[u8; SAMPLES], k: u8, left: u64) -> u64
    requires { (k < 4) × (left ≤ 20000) }
    ensures { (result ≡ cell_end captions.now k left) × (result ≤ left + 5000) }
{
    if samples_before(captions, k + 1) <= samples_before(captions, k) {
        return left;
    }
    let start = start_of(captions, k + 1);
    if left + LETTER < start {
        return start;
    }
    left + LETTER
}
