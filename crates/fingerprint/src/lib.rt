// The CRC-32 of some bytes, by which a printed page can be held against the file that it was made of.
#![tactic(auto)]

ghost use Rattle.std.specs.Prelude.{◌≡◌};
ghost use Rattle.fingerprint.specs.Crc32.{xor32, step_of, after_byte, crc32_of};

// The polynomial, its highest power in the lowest bit.
const POLYNOMIAL: u32 = 0xedb8_8320;

const ONES: u32 = 0xffff_ffff;

fn xor(a: u32, b: u32) -> u32
    ensures { result ≡ xor32 a b }
{
    a ^ b
}

// The remainder after one bit more.
fn step(r: u32) -> u32
    ensures { result ≡ step_of r }
{
    if r % 2 == 1 {
        return xor(r / 2, POLYNOMIAL);
    }
    r / 2
}

// The remainder after one byte more.
fn take_byte(r: u32, b: u8) -> u32
    ensures { result ≡ after_byte r b }
{
    let mut s = xor(r, b as u32);
    for _ in 0..8u8 {
        s = step(s);
    }
    s
}

// The CRC-32 of the bytes, as zlib's crc32 computes it.
pub fn crc32(bytes: &[u8]) -> u32
    ensures { result ≡ crc32_of bytes.now }
{
    let mut r: u32 = ONES;
    for b in bytes {
        r = take_byte(r, *b);
    }
    xor(r, ONES)
}
