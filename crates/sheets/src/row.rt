// A row's characters and the word that they are.
ghost use Rattle.std.specs.Prelude.{◌≤◌, length, ◌≡◌};
ghost use Rattle.sheets.specs.Rows.{bit_of, bits_only, word_from, row_of};
ghost use Rattle.sheets.specs.Turning.{in_order};

use crate::Order;
use crate::placing::listed_at;
use crate::scan::within;

// The bit of a character.
fn bit_of(x: u8) -> u64
    ensures { result ≡ bit_of x }
{
    if x == b'1' { 1 } else { 0 }
}

// Whether each character is 0 or 1.
fn bits_only(f: &[u8]) -> bool
    ensures { result ≡ bits_only f.now }
{
    f.iter().all(|x| within(*x, b'0', b'1'))
}

// The word of a row's characters in the cover's order: position 0 has the lowest bit.
fn word_of(f: &[u8], order: Order) -> u64
    requires { length f.now ≤ 64 }
    ensures { result ≡ word_from (in_order order f.now) }
{
    let n = f.len();
    let mut word: u64 = 0;
    for i in (0..n).rev() {
        word = word * 2 + bit_of(f[listed_at(order, n, i)]);
    }
    word
}

// The word of a row, whose characters are to be n.
pub fn read_row(f: &[u8], n: usize, order: Order) -> Option<u64>
    requires { n ≤ 64 }
    ensures { result ≡ row_of n order f.now }
{
    if f.len() != n {
        return None;
    }
    if !bits_only(f) {
        return None;
    }
    Some(word_of(f, order))
}
