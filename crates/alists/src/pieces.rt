// The text of a matrix put into a room piece by piece, each from a place on: bytes behind the room's end are dropped, so that the same
// functions also measure the text.
ghost use Rattle.std.specs.Prelude.{◌∷◌, [], map, ◌≡◌, ◌+◌, ◌<◌, ◌≤◌, length};
ghost use Rattle.alists.specs.Lists.{list_of};
ghost use Rattle.alists.specs.Text.{alist_text, decimal, line, matrix_text, text_of, weights};
ghost use Rattle.alists.specs.Working.{Puts, Small};

use crate::columns;

// One byte.
fn put_byte(room: &mut [u8], at: usize, byte: u8) -> usize
    requires { at < 32768 }
    ensures { Puts room.old at (byte ∷ []) room.new result }
{
    if at < room.len() {
        room[at] = byte;
    }
    at + 1
}

// The character of a digit.
fn character(digit: usize) -> u8
    requires { digit < 10 }
    ensures { result ≡ 48 + digit }
{
    b'0' + digit as u8
}

// A number below 100.
fn put_number(room: &mut [u8], at: usize, value: usize) -> usize
    requires value_bound { value < 100 }
    requires value_bound_2 { at + length (decimal value) ≤ 32768 }
    ensures { Puts room.old at (decimal value) room.new result }
{
    if value < 10 {
        return put_byte(room, at, character(value));
    }
    let next = put_byte(room, at, character(value / 10));
    put_byte(room, next, character(value % 10))
}

// A line of numbers.
fn put_line(room: &mut [u8], at: usize, numbers: &[usize]) -> usize
    requires small { Small numbers.now }
    requires numbers_bound { at + length (line numbers.now) ≤ 32768 }
    ensures { Puts room.old at (line numbers.now) room.new result }
{
    if numbers.is_empty() {
        return put_byte(room, at, b'\n');
    }
    let mut next = put_number(room, at, numbers[0]);
    for i in 1..numbers.len() {
        let space = put_byte(room, next, b' ');
        next = put_number(room, space, numbers[i]);
    }
    put_byte(room, next, b'\n')
}

// A line of two numbers.
fn put_pair(room: &mut [u8], at: usize, one: usize, other: usize) -> usize
    requires one_bound { one ≤ 64 }
    requires other_bound { other ≤ 64 }
    requires other_bound_2 { at + length (line (one ∷ other ∷ [])) ≤ 32768 }
    ensures { Puts room.old at (line (one ∷ other ∷ [])) room.new result }
{
    put_line(room, at, &[one, other])
}

// The list of a word.
fn put_list(room: &mut [u8], at: usize, word: u64, most: usize) -> usize
    requires most_bound { most ≤ 64 }
    requires word_bound { at + length (line (list_of most word)) ≤ 32768 }
    ensures { Puts room.old at (line (list_of most word)) room.new result }
{
    let mut table = [0usize; 64];
    columns::fill_list(word, &mut table);
    put_line(room, at, &table[..most])
}

// The lists of some words.
fn put_lists(room: &mut [u8], at: usize, words: &[u64], most: usize) -> usize
    requires most_bound { most ≤ 64 }
    requires words_bound { at + length (text_of (map (list_of most) words.now)) ≤ 32768 }
    ensures { Puts room.old at (text_of (map (list_of most) words.now)) room.new result }
{
    let mut next = at;
    for word in words {
        next = put_list(room, next, *word, most);
    }
    next
}

// The text of a matrix by its columns and rows and their weights.
fn put_weighed(
    room: &mut [u8],
    columns: &[u64],
    rows: &[u64],
    heights: &[usize],
    widths: &[usize],
) -> usize
    requires columns_len_bound { length columns.now ≤ 64 }
    requires rows_len_bound { length rows.now ≤ 64 }
    requires heights_value { heights.now ≡ weights columns.now }
    requires widths_value { widths.now ≡ weights rows.now }
    ensures { Puts room.old 0 (matrix_text columns.now rows.now) room.new result }
{
    let tall = columns::largest_of(heights);
    let wide = columns::largest_of(widths);
    let sizes = put_pair(room, 0, columns.len(), rows.len());
    let most = put_pair(room, sizes, tall, wide);
    let first = put_line(room, most, heights);
    let second = put_line(room, first, widths);
    let lists = put_lists(room, second, columns, tall);
    put_lists(room, lists, rows, wide)
}

// The text of a matrix by its columns and rows.
fn put_matrix(room: &mut [u8], columns: &[u64], rows: &[u64]) -> usize
    requires columns_len_bound { length columns.now ≤ 64 }
    requires rows_len_bound { length rows.now ≤ 64 }
    ensures { Puts room.old 0 (matrix_text columns.now rows.now) room.new result }
{
    let mut heights = [0usize; 64];
    let mut widths = [0usize; 64];
    let n = columns.len();
    let m = rows.len();
    columns::fill_weights(columns, &mut heights);
    columns::fill_weights(rows, &mut widths);
    put_weighed(room, columns, rows, &heights[..n], &widths[..m])
}

// The text of a matrix of n columns, at the start of the room; its length.
pub fn put_text(n: usize, rows: &[u64], room: &mut [u8]) -> usize
    requires n_bound { n ≤ 64 }
    requires rows_len_bound { length rows.now ≤ 64 }
    ensures { Puts room.old 0 (alist_text n rows.now) room.new result }
{
    let mut columns = [0u64; 64];
    columns::fill_columns(rows, n, &mut columns);
    put_matrix(room, &columns[..n], rows)
}
