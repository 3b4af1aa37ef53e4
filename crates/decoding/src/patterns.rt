// The bits of 64 states by one word: the parity of each with the column.
ghost use Rattle.std.specs.Prelude.{◌≡◌, ◌%◌, ◌^◌};
ghost use Rattle.decoding.specs.Patterns.{Pattern, Turned, TurnFits};

use words;

// For each column of three digits, its parities with the low three digits of the states 0 to 63.
const LOW: [u64; 8] = [
    0,
    0xAAAAAAAAAAAAAAAA,
    0xCCCCCCCCCCCCCCCC,
    0x6666666666666666,
    0xF0F0F0F0F0F0F0F0,
    0x5A5A5A5A5A5A5A5A,
    0x3C3C3C3C3C3C3C3C,
    0x9696969696969696,
];

// The same with their high three digits.
const HIGH: [u64; 8] = [
    0,
    0xFF00FF00FF00FF00,
    0xFFFF0000FFFF0000,
    0x00FFFF0000FFFF00,
    0xFFFFFFFF00000000,
    0x00FF00FFFF00FF00,
    0x0000FFFFFFFF0000,
    0xFF0000FF00FFFF00,
];

// Ones at the positions of a word's lower half.
const LOWER_HALF: u64 = 0xFFFFFFFF;

// The lower half of a word: the bits of its first 32 states.
pub fn lower_half(word: u64) -> u32
    ensures { result ≡ word % 2 ^ 32 }
{
    (word & LOWER_HALF) as u32
}

// The parities of the states 0 to 63 with a column: three of its digits with three of the state's at a time.
pub fn pattern(column: u64) -> u64
    ensures { Pattern column result }
{
    LOW[(column % 8) as usize] ^ HIGH[(column / 8 % 8) as usize]
}

// The parities of 64 states from a multiple of 64 on: the same pattern, or its complement.
pub fn turned(pattern: u64, column: u64, first: usize) -> u64
    requires { TurnFits pattern column first }
    ensures { Turned column first result }
{
    if words::parity_with(first as u64, column) == 0 {
        return pattern;
    }
    pattern ^ u64::MAX
}
