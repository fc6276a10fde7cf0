// Text written into a lent buffer. A writer stores its text from a position on, which moves past it; what does not fit is left out.
#![tactic(auto)]

ghost use Rattle.std.specs.Prelude.{◌≡◌, [], ◌∷◌, ◌<◌, ◌≤◌, length, take, MatchOption};
ghost use Rattle.text.specs.Text.{Puts};

// A lent buffer, and the position of the next byte in it.
#[derive(Drop)]
pub struct Writer<'a> {
    pub buffer: &'a mut [u8],
    pub at: usize,
}

impl<'a> Writer<'a> {
    // A writer that begins at the buffer's start.
    pub fn new(buffer: &'a mut [u8]) -> Writer<'a>
        ensures { (result.buffer.now ≡ buffer.old) × (result.at ≡ 0) × (result.buffer.ghost_name ≡ buffer.entry.ghost_name) }
    {
        Writer { buffer, at: 0 }
    }

    // What is written, where there is room for another byte: then nothing is left out.
    pub fn whole(&self) -> Option<&[u8]>
        ensures { MatchOption result (length self.now.buffer.now ≤ self.now.at) (λ text. (self.now.at < length self.now.buffer.now) × (text.now ≡ take self.now.at self.now.buffer.now)) }
    {
        if self.at < self.buffer.len() {
            return Some(&self.buffer[..self.at]);
        }
        None
    }
}

pub fn put_byte(out: &mut Writer, b: u8)
    ensures { Puts out.old (b ∷ []) out.new }
{
    let at = out.at;
    if at < out.buffer.len() {
        out.buffer[at] = b;
        out.at = at + 1;
    }
}

pub fn put(out: &mut Writer, text: &[u8])
    ensures { Puts out.old text.now out.new }
{
    for b in text {
        put_byte(out, *b);
    }
}
