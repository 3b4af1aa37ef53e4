// The numbers of a line in a text.
ghost use Rattle.std.specs.Prelude.{◌+◌, ◌-◌, ◌<◌, ◌≤◌, drop, length, [], ◌≡◌};
ghost use Rattle.alists.specs.Lines.{feed_of, line_of, more_of, next_of, number_of, rest_of};
ghost use Rattle.alists.specs.Working.{DigitAs, ReadsLine, ReadsNumber, Skips, StoresLine, stored};

// What was read at a place of a text, and the place after it.
#[derive(Clone, Copy)]
pub struct Taken<T> {
    pub value: T,
    pub next: usize,
}

// The digit at a place.
fn digit_at(text: &[u8], at: usize) -> Option<usize>
    requires { at ≤ length text.now }
    ensures { DigitAs text.now at result }
{
    if at == text.len() || !text[at].is_ascii_digit() {
        return None;
    }
    Some((text[at] - b'0') as usize)
}

// A digit has been read: the number that it begins.
fn more_at(text: &[u8], at: usize, first: usize) -> Option<Taken<usize>>
    requires at_in_bounds { at ≤ length text.now }
    requires first_bound { first < 10 }
    ensures { ReadsNumber (more_of first (drop at text.now)) text.now result }
{
    let Some(second) = digit_at(text, at) else {
        return Some(Taken {
            value: first,
            next: at,
        });
    };
    if first == 0 {
        return None;
    }
    Some(Taken {
        value: first * 10 + second,
        next: at + 1,
    })
}

// The number at a place.
fn number_at(text: &[u8], at: usize) -> Option<Taken<usize>>
    requires { at ≤ length text.now }
    ensures { ReadsNumber (number_of (drop at text.now)) text.now result }
{
    let first = digit_at(text, at)?;
    more_at(text, at + 1, first)
}

// The first place from `at` on that is no space.
fn skip_spaces(text: &[u8], at: usize) -> usize
    requires { at ≤ length text.now }
    ensures { Skips text.now at result }
{
    for i in at..text.len() {
        if text[i] != b' ' {
            return i;
        }
    }
    text.len()
}

// The number after one or several spaces.
fn next_at(text: &[u8], at: usize) -> Option<Taken<usize>>
    requires { at ≤ length text.now }
    ensures { ReadsNumber (next_of (drop at text.now)) text.now result }
{
    if at == text.len() || text[at] != b' ' {
        return None;
    }
    number_at(text, skip_spaces(text, at + 1))
}

// The line feed at a place; the place after it.
fn feed_at(text: &[u8], at: usize) -> Option<usize>
    requires { at ≤ length text.now }
    ensures { ReadsLine (feed_of (drop at text.now)) [] text.now result }
{
    if at == text.len() || text[at] != b'\n' {
        return None;
    }
    Some(at + 1)
}

// The numbers of a line after its first, into a table; the place after the line's end.
fn read_rest(text: &[u8], from: usize, count: usize, table: &mut [usize; 64]) -> Option<usize>
    requires from_in_bounds { from ≤ length text.now }
    requires le_count { 1 ≤ count }
    requires count_bound { count ≤ 64 }
    ensures { StoresLine (stored table.old 1 (rest_of (count - 1) (drop from text.now))) text.now table.old result table.new }
{
    let mut at = from;
    for i in 1..count {
        let number = next_at(text, at)?;
        table[i] = number.value;
        at = number.next;
    }
    feed_at(text, at)
}

// A line of so many numbers, into a table; the place after its end.
pub fn read_line(text: &[u8], at: usize, count: usize, table: &mut [usize; 64]) -> Option<usize>
    requires at_in_bounds { at ≤ length text.now }
    requires count_bound { count ≤ 64 }
    ensures { StoresLine (stored table.old 0 (line_of count (drop at text.now))) text.now table.old result table.new }
{
    if count == 0 {
        return feed_at(text, at);
    }
    let first = number_at(text, at)?;
    table[0] = first.value;
    read_rest(text, first.next, count, table)
}
