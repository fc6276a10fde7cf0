// A bit pattern of 32 bits read from its hexadecimal digits.
#![tactic(auto)]

ghost use Rattle.std.specs.Prelude.{◌≡◌, ◌≤◌, length, drop};
ghost use Rattle.hex_reading.specs.Reading.{digit_of, read_after, read_of};

// The length of `0x` and of the fewest and the most digits behind it.
const FEWEST: usize = 2 + 1;

const MOST: usize = 2 + 8;

// The value of a hexadecimal digit.
fn digit(c: u8) -> Option<u32>
    ensures { result ≡ digit_of c }
{
    match c {
        b'0'..=b'9' => Some((c - 48) as u32),
        b'A'..=b'F' => Some((c - 55) as u32),
        b'a'..=b'f' => Some((c - 87) as u32),
        _ => None,
    }
}

// The digits from the third byte on.
fn read_digits(text: &[u8]) -> Option<u32>
    requires { (2 ≤ length text.now) × (length text.now ≤ 10) }
    ensures { result ≡ read_after 0 (drop 2 text.now) }
{
    let mut value: u32 = 0;
    for &c in &text[2..] {
        let d = digit(c)?;
        value = value * 16 + d;
    }
    Some(value)
}

// The pattern of `0x` and one to eight digits.
pub fn read_pattern(text: &[u8]) -> Option<u32>
    ensures { result ≡ read_of text.now }
{
    if text.len() < FEWEST {
        return None;
    }
    if MOST < text.len() {
        return None;
    }
    if text[0] != b'0' {
        return None;
    }
    if text[1] != b'x' {
        return None;
    }
    read_digits(text)
}
