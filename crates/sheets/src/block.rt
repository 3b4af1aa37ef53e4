// A block line or a heard line, and its samples.
ghost use Rattle.std.specs.Prelude.{◌+◌, ◌≤◌, length, ◌≡◌};
ghost use Rattle.sheets.specs.Text.{fields, fields_from};
ghost use Rattle.sheets.specs.Readers.{FieldsRead, HeardRead, RestRead, LineRead, BlockRead};

use crate::SampleLine;
use crate::number::{read_counter_field, read_sample};
use crate::scan::until;
use crate::word::{Word, read_word};

// How many samples stand from a place on, or the first field that is none, counted from 1, where field `lead` begins.
pub fn read_samples(line: &[u8], from: usize, lead: usize, room: &mut [i16]) -> Result<usize, usize>
    requires from_in_bounds { from ≤ length line.now + 1 }
    requires lead_bound { lead ≤ 3 }
    ensures { FieldsRead lead (fields_from line.now from) room.old result room.new }
{
    let mut at = from;
    let mut k: usize = 0;
    // kept a `while`: each turn begins where the field before it was found to end
    while at <= line.len() {
        let end = until(line, at, b'\t');
        let sample = read_sample(&line[at..end]);
        let Some(value) = sample else {
            return Err(k + lead);
        };
        words::put(room, k, value);
        k += 1;
        at = end + 1;
    }
    Ok(k)
}

// The fields after heard, which ends at a: a counter, and samples.
pub fn read_heard(line: &[u8], a: usize, room: &mut [i16]) -> Result<usize, usize>
    requires { a ≤ length line.now }
    ensures { HeardRead (fields_from line.now (a + 1)) room.old result room.new }
{
    if a == line.len() {
        return Err(2);
    }
    let p = a + 1;
    let b = until(line, p, b'\t');
    let counter = read_counter_field(&line[p..b]);
    let Some(_) = counter else {
        return Err(2);
    };
    read_samples(line, b + 1, 3, room)
}

// The fields after block, or after heard on a sheet of heard lines; the word ends at a.
fn read_rest(
    heard: bool,
    word: Word,
    line: &[u8],
    a: usize,
    room: &mut [i16],
) -> Result<usize, usize>
    requires { a ≤ length line.now }
    ensures { RestRead heard word (fields_from line.now (a + 1)) room.old result room.new }
{
    if heard {
        let Word::Heard = word else {
            return Err(1);
        };
        return read_heard(line, a, room);
    }
    let Word::Block = word else {
        return Err(1);
    };
    read_samples(line, a + 1, 2, room)
}

// The samples of a block line, or of a heard line.
pub fn read_block_line(heard: bool, line: &[u8], room: &mut [i16]) -> Result<usize, usize>
    ensures { LineRead heard (fields line.now) room.old result room.new }
{
    let end = until(line, 0, b'\t');
    let word = read_word(&line[..end]);
    read_rest(heard, word, line, end, room)
}

// The block line or heard line that begins at a place, without its samples.
pub fn block_at(heard: bool, input: &[u8], at: usize) -> Option<SampleLine>
    ensures { BlockRead heard input.now at result }
{
    if input.len() < at {
        return None;
    }
    let end = until(input, at, b'\n');
    if end == input.len() {
        return None;
    }
    let mut scratch = [0i16; 1];
    let found = read_block_line(heard, &input[at..end], &mut scratch);
    let Ok(samples) = found else {
        return None;
    };
    let next = end + 1;
    Some(SampleLine { samples, next })
}
