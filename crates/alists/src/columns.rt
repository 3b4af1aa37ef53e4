// A matrix by its columns, and the lists and weights of words.
ghost use Rattle.std.specs.Prelude.{◌≡◌, map, ◌<◌, ◌^◌, ◌≤◌, leb, length, position};
ghost use Rattle.alists.specs.Lists.{column, columns, largest, weight};
ghost use Rattle.alists.specs.Working.{Fills, FillsList, PutsOne};

// Column i of some rows as a word: its position j is position i of row j.
pub fn column_at(rows: &[u64], i: usize) -> u64
    requires { length rows.now ≤ 64 }
    ensures { result ≡ column rows.now i }
{
    let mut word: u64 = 0;
    for j in (0..rows.len()).rev() {
        word = word * 2 + words::bit_at(rows[j], i);
    }
    word
}

// The first n columns, into a table.
pub fn fill_columns(rows: &[u64], n: usize, table: &mut [u64; 64])
    requires rows_len_bound { length rows.now ≤ 64 }
    requires n_bound { n ≤ 64 }
    ensures { Fills table.old (columns n rows.now) table.new }
{
    for i in 0..n {
        table[i] = column_at(rows, i);
    }
}

// Position i of a word into a table, where it is a one: counted from 1, after `count` others.
fn put_one(word: u64, i: usize, table: &mut [usize; 64], count: usize) -> usize
    requires i_bound { i < 64 }
    requires count_le_i { count ≤ i }
    ensures { PutsOne word i table.old count table.new result }
{
    if words::bit_at(word, i) == 1 {
        table[count] = i + 1;
        return count + 1;
    }
    count
}

// The ones of a word, counted from 1, into a table; how many they are.
pub fn fill_list(word: u64, table: &mut [usize; 64]) -> usize
    ensures { FillsList word table.old table.new result }
{
    let mut count = 0;
    for i in 0..64 {
        count = put_one(word, i, table, count);
    }
    count
}

// The weights of some words, into a table.
pub fn fill_weights(words: &[u64], table: &mut [usize; 64])
    requires { length words.now ≤ 64 }
    ensures { Fills table.old (map weight words.now) table.new }
{
    for (i, word) in words.iter().enumerate() {
        let mut scratch = [0usize; 64];
        table[i] = fill_list(*word, &mut scratch);
    }
}

// The largest of some weights.
pub fn largest_of(weights: &[usize]) -> usize
    ensures { result ≡ largest weights.now }
{
    let mut most = 0;
    for i in (0..weights.len()).rev() {
        most = weights[i].max(most);
    }
    most
}

// Whether a word has a one at n or beyond.
fn reaches(word: u64, n: usize) -> bool
    ensures { result ≡ leb (2 ^ n) word }
{
    n < 64 && 1u64 << n <= word
}

// The first row with a one at n or beyond.
pub fn first_beyond(rows: &[u64], n: usize) -> Option<usize>
    ensures { result ≡ position (λ row. leb (2 ^ n) row) rows.now }
{
    rows.iter().position(|row| reaches(*row, n))
}
