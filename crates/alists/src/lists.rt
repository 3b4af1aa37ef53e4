// The lists of columns and rows in a text.
ghost use Rattle.std.specs.Prelude.{◌+◌, ◌≤◌, drop, length, ◌≡◌};
ghost use Rattle.alists.specs.Reading.{fits, list_at, lists_from, ones_of, shows, word_of, zeros_only};
ghost use Rattle.alists.specs.Working.{FindsWord, ReadsList, ReadsLists, laid_from};

use crate::columns::column_at;
use crate::numbers::{Taken, read_line};

// Whether a number is an index up to a size that has not been used.
fn fits_index(size: usize, used: u64, x: usize) -> bool
    ensures { result ≡ fits size used x }
{
    x != 0 && x <= size && words::bit_at(used, x - 1) == 0
}

// The word with a one at each index.
fn ones_of(list: &[usize], size: usize) -> Option<u64>
    requires { size ≤ 64 }
    ensures { FindsWord (ones_of size 0 list.now) result }
{
    let mut used: u64 = 0;
    for x in list {
        if !fits_index(size, used, *x) {
            return None;
        }
        used += 1 << (x - 1);
    }
    Some(used)
}

// Whether numbers are all zero.
fn zeros_only(list: &[usize]) -> bool
    ensures { result ≡ zeros_only list.now }
{
    list.iter().all(|x| *x == 0)
}

// The word of a list that has its weight.
fn word_of(list: &[usize], weight: usize, size: usize) -> Option<u64>
    requires { size ≤ 64 }
    ensures { FindsWord (word_of size weight list.now) result }
{
    if list.len() < weight {
        return None;
    }
    if !zeros_only(&list[weight..]) {
        return None;
    }
    ones_of(&list[..weight], size)
}

// The word of the list at a place.
fn list_at(text: &[u8], at: usize, most: usize, size: usize, weight: usize) -> Option<Taken<u64>>
    requires at_in_bounds { at ≤ length text.now }
    requires most_bound { most ≤ 64 }
    requires size_bound { size ≤ 64 }
    ensures { ReadsList (list_at most size weight (drop at text.now)) text.now result }
{
    let mut table = [0usize; 64];
    let next = read_line(text, at, most, &mut table)?;
    let value = word_of(&table[..most], weight, size)?;
    Some(Taken { value, next })
}

// Whether a row shows the columns' ones, where columns are known.
fn shows_columns(seen: &[u64], i: usize, word: u64) -> bool
    requires { length seen.now ≤ 64 }
    ensures { result ≡ shows seen.now i word }
{
    seen.is_empty() || word == column_at(seen, i)
}

// A list for each weight, their words into a table: the place after the last, or the first list that is faulty.
pub fn lists_at(
    text: &[u8],
    from: usize,
    most: usize,
    size: usize,
    seen: &[u64],
    weights: &[usize],
    table: &mut [u64; 64],
) -> Result<usize, usize>
    requires from_in_bounds { from ≤ length text.now }
    requires most_bound { most ≤ 64 }
    requires size_bound { size ≤ 64 }
    requires seen_len_bound { length seen.now ≤ 64 }
    requires weights_len_bound { length weights.now ≤ 64 }
    ensures { ReadsLists (laid_from table.old 0 (lists_from most size seen.now 0 weights.now (drop from text.now)))
        (length weights.now) text.now table.old result table.new }
{
    let mut at = from;
    for (i, weight) in weights.iter().enumerate() {
        let Some(list) = list_at(text, at, most, size, *weight) else {
            return Err(i);
        };
        if !shows_columns(seen, i, list.value) {
            return Err(i);
        }
        table[i] = list.value;
        at = list.next;
    }
    Ok(at)
}
