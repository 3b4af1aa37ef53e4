// What a section's states share, 32 at a time: the sign and the tie of each bit, for the pattern and for its complement.
ghost use Rattle.std.specs.Prelude.{cond, ◌≡◌, ◌-◌, ◌+◌, ◌<◌, eqb, pos, set};
ghost use Rattle.std.specs.Int.Bits.{bit_and};
ghost use Rattle.decoding.specs.Tables.{Entered, EnterFits, FillFits, Tables};

use crate::choices;

// The weight of each position of 32.
pub const WEIGHTS: [u32; 32] = [
    1, 2, 4, 8, 16, 32, 64, 128, 256, 512, 1024, 2048, 4096, 8192, 16384, 32768, 65536, 131072,
    262144, 524288, 1048576, 2097152, 4194304, 8388608, 16777216, 33554432, 67108864, 134217728,
    268435456, 536870912, 1073741824, 2147483648,
];

// 1 where a word has a one in common with a mask.
fn digit(word: u32, mask: u32) -> u64
    ensures { result ≡ cond (eqb (bit_and word mask) 0) 0 1 }
{
    u64::from(word & mask != 0)
}

// A bit's sign and tie, and those of the other bit 32 places on.
fn enter(signs: &mut [i32; 64], ties: &mut [i32; 64], i: usize, bit: u64, gain: i32)
    requires { EnterFits signs.old ties.old i bit gain }
    ensures { Entered signs.old ties.old i bit gain signs.new ties.new }
{
    let sign = choices::sign_of(bit, gain);
    let other = choices::sign_of(1 - bit, gain);
    let tie = choices::tie_of(bit);
    let last = choices::tie_of(1 - bit);
    signs[i] = sign;
    signs[i + 32] = other;
    ties[i] = tie;
    ties[i + 32] = last;
}

// The tables of a pattern's first 32 bits.
pub fn fill(signs: &mut [i32; 64], ties: &mut [i32; 64], weights: &[u32; 32], word: u32, gain: i32)
    requires { FillFits signs.old ties.old weights.now gain }
    ensures { Tables word gain signs.new ties.new }
{
    for i in 0..32 {
        let bit = digit(word, weights[i]);
        enter(signs, ties, i, bit, gain);
    }
}
