// What is told of the words of two plates: the same, mirrored, or the earliest word that one of them has alone.
ghost use Rattle.std.specs.Int.Bits.{bit_xor};
ghost use Rattle.std.specs.Prelude.{drop, get_or, length, ◌≡◌, ◌+◌, ◌<◌, ◌≤◌};
ghost use Rattle.decoding.specs.Cosets.{taken_off};
ghost use Rattle.outlines.specs.Searching.{ComesFirst, EarlierTold, Outside, Settles, TellsAll, TellsMirrored, ToldOf};
ghost use Rattle.outlines.specs.Searching.{first_out, left_of, read_from, unless_same};
ghost use Rattle.plates.specs.Prepare.{IsPrepared};

use decoding::cosets::rest_of;
use plates::Plate;
use sheets::Order;

// What is told: the same words, mirrored words, other lengths, or a word that the first or the second has alone.
#[derive(Clone, Copy)]
pub enum Told {
    Same,
    Mirrored,
    Lengths,
    First(u64),
    Second(u64),
}

// A word as it is, or from the far end.
fn read_from(order: Order, n: usize, word: u64) -> u64
    requires { n ≤ 64 }
    ensures { result ≡ read_from order n word }
{
    match order {
        Order::First => word,
        Order::Last => words::reversed(n, word),
    }
}

// What is left of a word so read once a plate's mask and rows are taken off.
fn left_of(order: Order, n: usize, rows: &[u64], mask: u64, word: u64) -> u64
    requires { n ≤ 64 }
    ensures { result ≡ left_of order n rows.now mask word }
{
    rest_of(rows, read_from(order, n, word) ^ mask)
}

// Row j without the later rows, and the rest.
fn word_of(rows: &[u64], rest: u64, j: usize) -> u64
    requires { j < length rows.now }
    ensures { result ≡ bit_xor (taken_off (drop (j + 1) rows.now) (get_or rows.now j 0)) rest }
{
    let later = j + 1;
    rest_of(&rows[later..], rows[j]) ^ rest
}

// The first word of a plate, of those that tell all, of which something is left.
fn first_out(
    order: Order,
    n: usize,
    own: &[u64],
    rest: u64,
    other: &[u64],
    mask: u64,
) -> Option<u64>
    requires { n ≤ 64 }
    ensures { result ≡ first_out (left_of order n other.now mask) rest own.now }
{
    if left_of(order, n, other, mask, rest) != 0 {
        return Some(rest);
    }
    for j in (0..own.len()).rev() {
        let word = word_of(own, rest, j);
        if left_of(order, n, other, mask, word) != 0 {
            return Some(word);
        }
    }
    None
}

// The earliest word of a plate that another of the same length does not have when it is so read.
fn outside(order: Order, own: Plate, other: Plate) -> Option<u64>
    requires prepared { IsPrepared own }
    requires prepared_2 { IsPrepared other }
    requires n_value { own.n ≡ other.n }
    ensures { Outside order own other result }
{
    let table = own.rows;
    let k = own.k;
    let rows = &table[..k];
    let rest = rest_of(rows, own.mask);
    let others = other.rows;
    let count = other.k;
    first_out(order, own.n, rows, rest, &others[..count], other.mask)
}

// Whether all words of a plate are words of another from the far end.
fn all_mirrored(own: Plate, other: Plate) -> bool
    requires prepared { IsPrepared own }
    requires prepared_2 { IsPrepared other }
    requires n_value { own.n ≡ other.n }
    ensures { TellsAll own other result }
{
    outside(Order::Last, own, other).is_none()
}

// Whether the words of one plate are those of the other from the far end.
fn are_mirrored(first: Plate, second: Plate) -> bool
    requires prepared { IsPrepared first }
    requires prepared_2 { IsPrepared second }
    requires n_value { first.n ≡ second.n }
    ensures { TellsMirrored first second result }
{
    all_mirrored(first, second) && all_mirrored(second, first)
}

// Whether the first of two words that differ is the earlier one.
fn comes_first(first: u64, second: u64) -> bool
    ensures { ComesFirst first second result }
{
    words::bit_at(first, words::first_one(first ^ second)) == 0
}

// The earlier of two words, and whose it is.
fn earlier_of(first: u64, second: u64) -> Told
    ensures { EarlierTold first second result }
{
    if comes_first(first, second) {
        return Told::First(first);
    }
    Told::Second(second)
}

// What is told by the earliest word that each plate has alone, mirrored words passed over.
fn settle(first: Option<u64>, second: Option<u64>) -> Told
    ensures { Settles first second result }
{
    match (first, second) {
        (Some(word), Some(other)) => earlier_of(word, other),
        (Some(word), None) => Told::First(word),
        (None, Some(word)) => Told::Second(word),
        (None, None) => Told::Same,
    }
}

// Same where that is told, and else mirrored.
fn unless_same(told: Told) -> Told
    ensures { result ≡ unless_same told }
{
    match told {
        Told::Same => Told::Same,
        _ => Told::Mirrored,
    }
}

// What is told of two plates of the same length.
fn tell_words(first: Plate, second: Plate) -> Told
    requires prepared { IsPrepared first }
    requires prepared_2 { IsPrepared second }
    requires n_value { first.n ≡ second.n }
    ensures { ToldOf first second result }
{
    let one = outside(Order::First, first, second);
    let other = outside(Order::First, second, first);
    let settled = settle(one, other);
    if are_mirrored(first, second) {
        return unless_same(settled);
    }
    settled
}

// What is told of two plates.
pub fn tell(first: Plate, second: Plate) -> Told
    requires prepared { IsPrepared first }
    requires prepared_2 { IsPrepared second }
    ensures { ToldOf first second result }
{
    if first.n != second.n {
        return Told::Lengths;
    }
    tell_words(first, second)
}
