// What a program is given: its standard input, or another reader, and its arguments.
#![tactic(auto)]

ghost use Rattle.std.specs.Prelude.{◌≡◌, ◌<◌, ◌≤◌, IfOk, length, take};
ghost use Rattle.std.specs.Io.KnownBytes.{Consumes, IsAtEnd};

use decimal_reading::read_at_most;
use std::env::Env;
use std::io;
use std::io::Read;

// Reads until the buffer is full or the input ends, and answers how many bytes it put at the start of the buffer.
pub fn read_full<R: Read>(input: &mut R, buf: &mut [u8]) -> io::Result<usize>
    ensures within { IfOk result (λ n. n ≤ length buf.new) }
    ensures bytes { IfOk result (λ n. Consumes (R.remaining input.old) (R.remaining input.new) (take n buf.new)) }
    ensures end { IfOk result (λ n. n < length buf.new → IsAtEnd (R.remaining input.new)) }
{
    let mut done = 0;
    while done < buf.len() {
        let n = input.read(&mut buf[done..])?;
        if n == 0 {
            break;
        }
        done += n;
    }
    Ok(done)
}

// Puts argument i at the start of the buffer and answers its length: 0 where it is missing or longer than the buffer. Argument 0 is the program's name.
pub fn argument<E: Env>(env: &E, i: usize, buf: &mut [u8]) -> usize
    ensures { result ≤ length buf.new }
{
    match env.arg(i, buf) {
        Ok(n) => n,
        Err(_) => 0,
    }
}

// Argument i as a number in decimal digits, and `most` where it is a larger one or none.
pub fn number_argument(env: &impl Env, i: usize, most: u16) -> u16
    ensures { result ≤ most }
{
    let mut word = [0u8; 16];
    let n = argument(env, i, &mut word);
    read_at_most(&word[..n], most)
}

// The first argument as a number; 255, which is no number of turns, where it is a larger one or none.
pub fn turns_argument(env: &impl Env) -> u32
    ensures { result ≤ 255 }
{
    number_argument(env, 1, 255) as u32
}
