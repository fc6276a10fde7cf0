// The lines of a list of numbers, read a byte at a time. A line is a letter or none, then hexadecimal numbers, then a comment or none.
#![tactic(auto)]

ghost use Rattle.std.specs.Prelude.{◌≡◌, ◌≤◌, IfSome};
ghost use Rattle.number_lines.specs.Lines.{digit_of, no_line, with_digit, pushed, with_number, is_blank, may_lead, with_sign, read_one, line_ended};

// The most numbers of a line.
pub const MOST: usize = 9;

#[derive(Clone, Copy)]
pub struct Line {
    pub letter: Option<u8>,
    // The first `count` are the numbers.
    pub numbers: [u64; MOST],
    pub count: usize,
    // Something else stands on the line, or too much.
    pub wrong: bool,
    // Whether the reading is within a comment.
    pub comment: bool,
    // Within a number, the number so far.
    pub value: Option<u64>,
}

// The value of a hexadecimal digit in lower case.
#[tactic(auto, unfolding(crate::specs::Lines::digit_of))]
fn digit(b: u8) -> Option<u64>
    ensures is { result ≡ digit_of b }
    ensures below { IfSome result (λ d. d ≤ 15) }
{
    match b {
        b'0'..=b'9' => Some((b - b'0') as u64),
        b'a'..=b'f' => Some((b - b'a' + 10) as u64),
        _ => None,
    }
}

// Before the first byte.
pub fn no_line() -> Line
    ensures { result ≡ no_line }
{
    Line {
        letter: None,
        numbers: [0; MOST],
        count: 0,
        wrong: false,
        comment: false,
        value: None,
    }
}

// A digit more; a number of 64 bits has room for sixteen.
#[tactic(auto, unfolding(crate::specs::Lines::with_digit))]
fn with_digit(line: Line, d: u64) -> Line
    requires { d ≤ 15 }
    ensures { result ≡ with_digit line d }
{
    let value = line.value.unwrap_or(0);
    if value < 0x1000_0000_0000_0000 {
        return Line {
            value: Some(value * 16 + d),
            ..line
        };
    }
    Line {
        wrong: true,
        value: Some(value),
        ..line
    }
}

// The number that was read is one of the line's, where there is room.
#[tactic(auto, unfolding(crate::specs::Lines::pushed))]
fn push_value(line: Line, value: u64) -> Line
    ensures { result ≡ pushed line value }
{
    let mut next = Line {
        value: None,
        ..line
    };
    let n = line.count;
    if n < MOST {
        next.numbers[n] = value;
        next.count = n + 1;
    } else {
        next.wrong = true;
    }
    next
}

// After the last digit of a number, if there is one.
#[tactic(auto, unfolding(crate::specs::Lines::pushed_by))]
fn with_number(line: Line) -> Line
    ensures { result ≡ with_number line }
{
    match line.value {
        Some(value) => push_value(line, value),
        None => line,
    }
}

// Nothing stands on the line so far.
#[tactic(auto, unfolding(crate::specs::Lines::is_blank))]
pub fn is_blank(line: Line) -> bool
    ensures { result ≡ is_blank line }
{
    !line.wrong && line.letter.is_none() && line.count == 0
}

// A capital letter, where nothing stands before it.
#[tactic(auto, unfolding(crate::specs::Lines::may_lead))]
fn may_lead(line: Line, b: u8) -> bool
    ensures { result ≡ may_lead line b }
{
    b.is_ascii_uppercase() && is_blank(line)
}

// After a byte that is no digit: a comment begins, a letter stands first, and a space says nothing.
#[tactic(auto, unfolding(crate::specs::Lines::with_sign))]
fn with_sign(line: Line, b: u8) -> Line
    ensures { result ≡ with_sign line b }
{
    if b == b' ' {
        return line;
    }
    let mut next = line;
    if b == b'#' {
        next.comment = true;
    } else if may_lead(line, b) {
        next.letter = Some(b);
    } else {
        next.wrong = true;
    }
    next
}

// The line with a byte more.
#[tactic(auto, unfolding(crate::specs::Lines::read_one, crate::specs::Lines::read_by))]
pub fn read_byte(line: Line, b: u8) -> Line
    ensures { result ≡ read_one line b }
{
    if line.comment {
        return line;
    }
    match digit(b) {
        Some(d) => with_digit(line, d),
        None => with_sign(with_number(line), b),
    }
}

// At the line's end.
pub fn end_line(line: Line) -> Line
    ensures { result ≡ line_ended line }
{
    with_number(line)
}
