// A number read from its decimal digits.
#![tactic(auto)]

ghost use Rattle.std.specs.Prelude.{◌≡◌, ◌≤◌};
ghost use Rattle.decimal_reading.specs.Reading.{read_of, number_at_most};

// The most digits that are read.
const MAX_DIGITS: usize = 9;

// The number of up to nine decimal digits.
pub fn read_number(text: &[u8]) -> Option<u64>
    ensures { result ≡ read_of text.now }
{
    if text.len() == 0 {
        return None;
    }
    if MAX_DIGITS < text.len() {
        return None;
    }
    let mut value: u64 = 0;
    for &c in text {
        if c < b'0' {
            return None;
        }
        if b'9' < c {
            return None;
        }
        value = value * 10 + (c - b'0') as u64;
    }
    Some(value)
}

// The number of a text, and `most` where it is a larger one or none.
pub fn read_at_most(text: &[u8], most: u16) -> u16
    ensures { (result ≡ number_at_most (read_of text.now) most) × (result ≤ most) }
{
    match read_number(text) {
        Some(value) => value.min(most as u64) as u16,
        None => most,
    }
}
