// The lines of an alist text in turn, each judged against those above it.
ghost use Rattle.std.specs.Prelude.{◌≤◌, drop, length, [], ◌≡◌};
ghost use Rattle.alists.specs.Calls.{Answers};
ghost use Rattle.alists.specs.Lines.{line_of};
ghost use Rattle.alists.specs.Reading.{in_size, lists_from, on_column_weights, on_columns, on_most, on_rows, reading};
ghost use Rattle.alists.specs.Working.{StoresLine, met, stored};

use crate::Matrix;
use crate::columns::largest_of;
use crate::lists::lists_at;
use crate::numbers::read_line;
use plates::Refusal;

// A number of columns or rows is 1 to 64.
fn in_size(n: usize) -> bool
    ensures { result ≡ in_size n }
{
    1 <= n && n <= 64
}

// The rows' lists, and nothing after them.
fn on_rows(
    text: &[u8],
    at: usize,
    n: usize,
    most: usize,
    columns: &[u64],
    weights: &[usize],
    table: &mut [u64; 64],
) -> Result<Matrix, Refusal>
    requires at_in_bounds { at ≤ length text.now }
    requires n_bound { n ≤ 64 }
    requires most_bound { most ≤ 64 }
    requires columns_len_bound { length columns.now ≤ 64 }
    requires weights_len_bound { length weights.now ≤ 64 }
    ensures { Answers (on_rows n (lists_from most n columns.now 0 weights.now (drop at text.now))) table.old result table.new }
{
    let mut rows = [0u64; 64];
    let next = match lists_at(text, at, most, n, columns, weights, &mut rows) {
        Ok(next) => next,
        Err(i) => return Err(Refusal::AlistFault(5 + n + i)),
    };
    let count = weights.len();
    if next < text.len() {
        return Err(Refusal::AlistFault(5 + n + count));
    }
    *table = rows;
    Ok(Matrix { n, count })
}

// The columns' lists.
fn on_columns(
    text: &[u8],
    at: usize,
    n: usize,
    m: usize,
    tall: usize,
    wide: usize,
    heights: &[usize],
    widths: &[usize],
    table: &mut [u64; 64],
) -> Result<Matrix, Refusal>
    requires at_in_bounds { at ≤ length text.now }
    requires n_bound { n ≤ 64 }
    requires m_bound { m ≤ 64 }
    requires tall_bound { tall ≤ 64 }
    requires wide_bound { wide ≤ 64 }
    requires heights_len { length heights.now ≡ n }
    requires widths_len_bound { length widths.now ≤ 64 }
    ensures { Answers (on_columns n wide widths.now (lists_from tall m [] 0 heights.now (drop at text.now))) table.old result table.new }
{
    let mut columns = [0u64; 64];
    let none = [0u64; 0];
    match lists_at(text, at, tall, m, &none, heights, &mut columns) {
        Err(i) => Err(Refusal::AlistFault(5 + i)),
        Ok(next) => on_rows(text, next, n, wide, &columns[..n], widths, table),
    }
}

// A line of so many weights, the largest of which is met, into a table; the place after its end.
fn weights_at(
    text: &[u8],
    at: usize,
    count: usize,
    most: usize,
    table: &mut [usize; 64],
) -> Option<usize>
    requires at_in_bounds { at ≤ length text.now }
    requires count_bound { count ≤ 64 }
    ensures { StoresLine (stored table.old 0 (met most (line_of count (drop at text.now)))) text.now table.old result table.new }
{
    let next = read_line(text, at, count, table)?;
    if largest_of(&table[..count]) != most {
        return None;
    }
    Some(next)
}

// The column weights and the row weights.
fn on_weights(
    text: &[u8],
    at: usize,
    n: usize,
    m: usize,
    tall: usize,
    wide: usize,
    table: &mut [u64; 64],
) -> Result<Matrix, Refusal>
    requires at_in_bounds { at ≤ length text.now }
    requires n_bound { n ≤ 64 }
    requires m_bound { m ≤ 64 }
    requires tall_bound { tall ≤ 64 }
    requires wide_bound { wide ≤ 64 }
    ensures { Answers (on_column_weights n m tall wide (line_of n (drop at text.now))) table.old result table.new }
{
    let mut heights = [0usize; 64];
    let mut widths = [0usize; 64];
    let below = weights_at(text, at, n, tall, &mut heights).ok_or(Refusal::AlistFault(3))?;
    let lists = weights_at(text, below, m, wide, &mut widths).ok_or(Refusal::AlistFault(4))?;
    on_columns(
        text,
        lists,
        n,
        m,
        tall,
        wide,
        &heights[..n],
        &widths[..m],
        table,
    )
}

// The largest weights.
fn on_most(
    text: &[u8],
    at: usize,
    n: usize,
    m: usize,
    table: &mut [u64; 64],
) -> Result<Matrix, Refusal>
    requires at_in_bounds { at ≤ length text.now }
    requires n_bound { n ≤ 64 }
    requires m_bound { m ≤ 64 }
    ensures { Answers (on_most n m (line_of 2 (drop at text.now))) table.old result table.new }
{
    let mut pair = [0usize; 64];
    let next = read_line(text, at, 2, &mut pair).ok_or(Refusal::AlistFault(2))?;
    let tall = pair[0];
    let wide = pair[1];
    if m < tall || n < wide {
        return Err(Refusal::AlistFault(2));
    }
    on_weights(text, next, n, m, tall, wide, table)
}

// The numbers of columns and rows.
pub fn on_sizes(text: &[u8], table: &mut [u64; 64]) -> Result<Matrix, Refusal>
    ensures { Answers (reading text.now) table.old result table.new }
{
    let mut pair = [0usize; 64];
    let next = read_line(text, 0, 2, &mut pair).ok_or(Refusal::AlistFault(1))?;
    let n = pair[0];
    let m = pair[1];
    if !in_size(n) || !in_size(m) {
        return Err(Refusal::AlistFault(1));
    }
    on_most(text, next, n, m, table)
}
