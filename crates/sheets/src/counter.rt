// The counter of a heard line.
ghost use Rattle.std.specs.Prelude.{◌<◌, ◌≡◌};
ghost use Rattle.sheets.specs.Blocks.{counter_in, counter_front};
ghost use Rattle.sheets.specs.Numbers.{worth};
ghost use Rattle.sheets.specs.Readers.{Below};
ghost use Rattle.sheets.specs.Text.{fields, lines_from};

use crate::number::read_counter_field;
use crate::scan::until;
use crate::word::{Word, read_word};

// A counter's value as one of 16 bits.
fn small(value: usize) -> u16
    requires { value < 65536 }
    ensures { result ≡ value }
{
    value as u16
}

// The value of a counter: 0 where it is none.
fn worth(number: Option<usize>) -> u16
    requires { Below 65536 number }
    ensures { result ≡ worth number }
{
    match number {
        Some(value) => small(value),
        None => 0,
    }
}

// The counter of a line: 0 where it is no heard line or has none.
pub fn counter_in(line: &[u8]) -> u16
    ensures { result ≡ counter_in (fields line.now) }
{
    let a = until(line, 0, b'\t');
    let word = read_word(&line[..a]);
    let Word::Heard = word else {
        return 0;
    };
    if a == line.len() {
        return 0;
    }
    let p = a + 1;
    let b = until(line, p, b'\t');
    worth(read_counter_field(&line[p..b]))
}

// The counter of the line at a place: 0 where there is no line.
pub fn counter_at(input: &[u8], at: usize) -> u16
    ensures { result ≡ counter_front (lines_from input.now at) }
{
    if input.len() < at {
        return 0;
    }
    let end = until(input, at, b'\n');
    counter_in(&input[at..end])
}
