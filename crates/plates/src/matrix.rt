// From a matrix to rows whose sums are its code: the rows themselves, or the words that pass the checks.
ghost use Rattle.std.specs.Prelude.{◌≡◌, ℕ, ◌^◌, ◌<◌, ◌≤◌, get_or, length, replicate};
ghost use Rattle.plates.specs.Filling.{Filled, Holds, Passing, PassingOne, row_at, unit};
ghost use Rattle.plates.specs.Tested.{Decides};
ghost use Rattle.plates.specs.Working.{Beyond, FirstWhere, Table};

use crate::{Kind, rows};

// Whether the word has a one at n or beyond.
pub fn reaches(word: u64, n: usize) -> bool
    ensures { Decides (Beyond n word) result }
{
    word != 0 && n <= words::last_one(word)
}

// The first row with a one at n or beyond.
pub fn first_beyond(rows: &[u64], n: usize) -> Option<usize>
    ensures { FirstWhere rows.now (Beyond n) 0 (length rows.now) result }
{
    for (i, row) in rows.iter().enumerate() {
        if reaches(*row, n) {
            return Some(i);
        }
    }
    None
}

// The rows of the matrix, in a table of zero words.
fn load_rows(table: &mut [u64; 64], rows: &[u64])
    requires rows_len_bound { length rows.now ≤ 64 }
    requires table_value { table.old ≡ replicate 64 0 }
    ensures { Holds table.new (row_at rows.now) (length rows.now) }
{
    for (i, row) in rows.iter().enumerate() {
        table[i] = *row;
    }
}

// The n unit words, in a table of zero words.
fn unit_words(table: &mut [u64; 64], n: usize)
    requires n_bound { n ≤ 64 }
    requires table_value { table.old ≡ replicate 64 0 }
    ensures { Holds table.new unit n }
{
    for i in 0..n {
        table[i] = 1 << i;
    }
}

// One check is taken in: its first odd row is added to the later odd rows, and put to zero.
fn take_check(table: &mut [u64; 64], n: usize, check: u64)
    requires { Table table.old n n }
    ensures { PassingOne table.old table.new n check }
{
    if let Some(odd) = rows::first_odd(table, 0, n, check) {
        rows::even_rows(table, odd, n, check);
        table[odd] = 0;
    }
}

// All checks are taken in, one after the other.
fn take_checks(table: &mut [u64; 64], n: usize, checks: &[u64])
    requires { Table table.old n n }
    ensures { Passing table.old table.new n checks.now (length checks.now) }
{
    for check in checks {
        take_check(table, n, *check);
    }
}

// The table of a matrix, from a table of zero words. Gives the number of places that may hold other words.
pub fn fill(table: &mut [u64; 64], n: usize, kind: Kind, rows: &[u64]) -> usize
    requires n_bound { n ≤ 64 }
    requires rows_len_bound { length rows.now ≤ 64 }
    requires by_index { (j : ℕ) → j < length rows.now → get_or rows.now j 0 < 2 ^ n }
    requires table_value { table.old ≡ replicate 64 0 }
    ensures { Filled n kind rows.now table.new result }
{
    match kind {
        Kind::G => {
            load_rows(table, rows);
            rows.len()
        }
        Kind::H => {
            unit_words(table, n);
            take_checks(table, n, rows);
            n
        }
    }
}
