// The block that a seed stands for in the list of the reference's answers: reference/generator/list.rs draws the same.
#![tactic(auto)]

ghost use Rattle.std.specs.Prelude.{◌≡◌, ◌<◌, length};
ghost use Rattle.replay_blocks.specs.Drawn.{next_of, byte_of, drawn_block};

// The bytes of a block.
const BLOCK: usize = 242;

// 2^31 - 1.
const MODULUS: u64 = 0x7fff_ffff;

// The number after s.
fn next(s: u64) -> u64
    requires { s < 0x8000_0000 }
    ensures { (result ≡ next_of s) × (result < 0x7fff_ffff) }
{
    s * 48271 % MODULUS
}

// The highest eight of its 31 bits, modulo one more than the most.
fn byte_of(s: u64, most: u8) -> u8
    ensures { result ≡ byte_of s most }
{
    (s / 0x80_0000 % (most as u64 + 1)) as u8
}

pub fn drawn_block(seed: u32, most: u8) -> [u8; BLOCK]
    ensures { (result ≡ drawn_block seed most) × (length result ≡ 242) }
{
    let mut block = [0u8; BLOCK];
    let mut s = seed as u64 % MODULUS;
    for place in &mut block {
        s = next(s);
        *place = byte_of(s, most);
    }
    block
}
