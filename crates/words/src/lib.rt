// A 64-bit word by position: position i is the bit of weight 2^i.
#![tactic(auto)]

ghost use Rattle.std.specs.Prelude.{min, set, ◌≡◌};
ghost use Rattle.words.specs.Ends.{FirstOne, LastOne};
ghost use Rattle.words.specs.Parity.{parity};
ghost use Rattle.words.specs.Reversed.{reversed};
ghost use Rattle.words.specs.Word.{bit};

// A position of a word: 0 or 1, and 0 from 64 on.
pub fn bit_at(word: u64, position: usize) -> u64
    ensures { result ≡ bit word position }
{
    if position < 64 {
        return (word >> position) & 1;
    }
    0
}

// The first one of a word; 64 where it has none.
pub fn first_one(word: u64) -> usize
    ensures { FirstOne word result }
{
    u64::trailing_zeros(word) as usize
}

// The last one of a word; 64 where it has none.
pub fn last_one(word: u64) -> usize
    ensures { LastOne word result }
{
    if word == 0 {
        return 64;
    }
    63 - (u64::leading_zeros(word) as usize)
}

// 1 where two words have an odd number of ones in common, and 0 where an even number.
pub fn parity_with(word: u64, other: u64) -> u64
    ensures { result ≡ parity word other }
{
    (u64::count_ones(word & other) % 2) as u64
}

// A value into its place of a room; beyond the room it is dropped.
pub fn put<T: Copy>(room: &mut [T], place: usize, value: T)
    ensures { room.new ≡ set room.old place value }
{
    if place < room.len() {
        room[place] = value;
    }
}

// A word of n positions from the far end: position 0 is the last of the first n, and so on. From 64 on n counts as 64.
pub fn reversed(n: usize, word: u64) -> u64
    ensures { result ≡ reversed (min n 64) word }
{
    let mut turned: u64 = 0;
    let end = n.min(64);
    for i in 0..end {
        turned = turned * 2 + bit_at(word, i);
    }
    turned
}
