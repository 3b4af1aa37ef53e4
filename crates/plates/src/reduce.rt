// From rows to plate rows, in their own table: rising first ones, then different last ones, then 0 where a row inside begins.
ghost use Rattle.std.specs.Prelude.{◌≡◌, ℕ, ◌+◌, ◌^◌, ◌<◌, ◌≤◌, get_or, length};
ghost use Rattle.words.specs.Ends.{first, last};
ghost use Rattle.plates.specs.Reducing.{Basis, BasisFrom, ClearedFrom, Covers, Echelon, EchelonFrom, Parted, PartedFrom, ReducedFrom};
ghost use Rattle.plates.specs.Tested.{Decides};
ghost use Rattle.plates.specs.Working.{EndsAt, Gained, LastWhere, Table, Tells};

use crate::rows;

// One column: the first row from k on with a one there becomes row k, and is added to the later rows with a one there.
// Gives the number of rows that have their first ones.
fn column(table: &mut [u64; 64], used: usize, k: usize, c: usize) -> usize
    requires c_bound { c < 64 }
    requires echelon { Echelon table.old used k c }
    ensures { EchelonFrom table.old table.new used result (c + 1) }
{
    let unit: u64 = 1 << c;
    let Some(pivot) = rows::first_odd(table, k, used, unit) else {
        return k;
    };
    rows::swap_rows(table, k, pivot);
    rows::even_rows(table, k, used, unit);
    k + 1
}

// All n columns. Gives the number of rows; the places after them hold zero words.
fn columns(table: &mut [u64; 64], n: usize, used: usize) -> usize
    requires { Table table.old n used }
    ensures { BasisFrom table.old table.new result }
{
    let mut k: usize = 0;
    for c in 0..n {
        k = column(table, used, k, c);
    }
    k
}

// Whether the word has its last one at c.
fn ends_at(word: u64, c: usize) -> bool
    requires { c < 64 }
    ensures { Decides (EndsAt c word) result }
{
    words::last_one(word) == c
}

// The last of the first k rows that ends at c.
fn last_ending(table: &[u64; 64], k: usize, c: usize) -> Option<usize>
    requires k_bound { k ≤ 64 }
    requires c_bound { c < 64 }
    ensures { LastWhere table.now (EndsAt c) k result }
{
    for i in (0..k).rev() {
        if ends_at(table[i], c) {
            return Some(i);
        }
    }
    None
}

// Each row before row p that ends at c gains row p.
fn part_rows(table: &mut [u64; 64], p: usize, c: usize)
    requires p_bound { p < 64 }
    requires c_bound { c < 64 }
    ensures { Gained table.old table.new (EndsAt c) 0 p p }
{
    for i in 0..p {
        let ends = ends_at(table[i], c);
        rows::gain_row(table, i, p, ends as u64);
    }
}

// One column from the right: the last row that ends there is added to the others that do.
fn part_column(table: &mut [u64; 64], k: usize, c: usize)
    requires c_bound { c < 64 }
    requires basis { Basis table.old k }
    requires parted { Parted table.old k (c + 1) }
    ensures { PartedFrom table.old table.new k c }
{
    if let Some(p) = last_ending(table, k, c) {
        part_rows(table, p, c);
    }
}

// All n columns, from the right: the last ones differ.
fn part_columns(table: &mut [u64; 64], n: usize, k: usize)
    requires n_bound { n ≤ 64 }
    requires basis { Basis table.old k }
    requires by_index { (j : ℕ) → get_or table.old j 0 < 2 ^ n }
    ensures { PartedFrom table.old table.new k 0 }
{
    for c in (0..n).rev() {
        part_column(table, k, c);
    }
}

// 1 where the word ends after `last` and has a one at `first`, and 0 elsewhere.
fn covers(word: u64, first: usize, last: usize) -> u64
    ensures { Tells (Covers first last word) result }
{
    if last < words::last_one(word) {
        return words::bit_at(word, first);
    }
    0
}

// Each row before row j in which row j lies gets 0 where row j begins.
fn clear_rows(table: &mut [u64; 64], j: usize)
    requires j_bound { j < 64 }
    requires nonzero { 0 < get_or table.old j 0 }
    requires j_bound_2 { get_or table.old j 0 < 2 ^ 64 }
    ensures { Gained table.old table.new (Covers (first (get_or table.old j 0)) (last (get_or table.old j 0))) 0 j j }
{
    let first = words::first_one(table[j]);
    let last = words::last_one(table[j]);
    for i in 0..j {
        let one = covers(table[i], first, last);
        rows::gain_row(table, i, j, one);
    }
}

// Row by row: each row has 0 where a row inside it begins.
fn clear_heads(table: &mut [u64; 64], k: usize)
    requires basis { Basis table.old k }
    requires parted { Parted table.old k 0 }
    ensures { ClearedFrom table.old table.new k k }
{
    for j in 0..k {
        clear_rows(table, j);
    }
}

// The plate rows of the table's sums, in the same table. Gives how many there are; the places after them hold zero words.
pub fn reduce(table: &mut [u64; 64], n: usize, used: usize) -> usize
    requires { Table table.old n used }
    ensures { ReducedFrom table.old table.new n result }
{
    let k = columns(table, n, used);
    part_columns(table, n, k);
    clear_heads(table, k);
    k
}
