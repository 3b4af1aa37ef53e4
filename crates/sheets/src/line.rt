// A line after the cover.
ghost use Rattle.std.specs.Prelude.{◌+◌, ◌≤◌, length, ◌≡◌};
ghost use Rattle.sheets.specs.Text.{line_feed, fields, fields_from, lines_from};
ghost use Rattle.sheets.specs.Readers.{Until};
ghost use Rattle.sheets.specs.Sheet.{refusal_of};
ghost use Rattle.sheets.specs.Lines.{row_rest, block_is, block_rest, heard_fields, end_rest, late_row, late_block, late_heard, line_by, line_of, front};

use crate::Order;
use crate::block::{read_heard, read_samples};
use crate::row::read_row;
use crate::scan::until;
use crate::word::{Word, read_word};
use plates::Refusal;

// What has come before a line: neither a block nor a heard line, blocks, or heard lines.
#[derive(Clone, Copy, PartialEq, Eq)]
pub enum Came {
    Nothing,
    Blocks,
    Heards,
}

// What is wrong with a line. Fields are counted from 1.
#[derive(Clone, Copy)]
pub enum Fault {
    // The line is missing, or not ended.
    Missing,
    // Its first field is unknown or out of its turn.
    Turn,
    // Too few or too many fields: the first missing or extra.
    Count(usize),
    // A bad number, letter or order.
    Value(usize),
    // A row or mask of wrong length or character.
    Row(usize),
}

// The refusal of a line with such a fault.
pub fn refusal_of(line: usize, fault: Fault) -> Refusal
    ensures { result ≡ refusal_of line fault }
{
    match fault {
        Fault::Count(field) => Refusal::FieldCount(line, field),
        Fault::Value(field) => Refusal::FieldValue(line, field),
        Fault::Row(field) => Refusal::RowField(line, field),
        Fault::Missing => Refusal::SheetLine(line),
        Fault::Turn => Refusal::FirstField(line),
    }
}

// What a line is: a row with its word, a block or heard line, or the end.
#[derive(Clone, Copy)]
pub enum Line {
    Row(u64),
    Block,
    End,
}

// The word of the fields after row or mask, which ends at a.
pub fn row_rest(line: &[u8], a: usize, n: usize, order: Order) -> Result<u64, Fault>
    requires a_in_bounds { a ≤ length line.now }
    requires n_bound { n ≤ 64 }
    ensures { result ≡ row_rest n order (fields_from line.now (a + 1)) }
{
    if a == line.len() {
        return Err(Fault::Count(2));
    }
    let p = a + 1;
    let b = until(line, p, b'\t');
    if b != line.len() {
        return Err(Fault::Count(3));
    }
    read_row(&line[p..b], n, order).ok_or(Fault::Row(2))
}

// Samples make the line.
fn block_is(samples: Result<usize, usize>) -> Result<Line, Fault>
    ensures { result ≡ block_is samples }
{
    match samples {
        Ok(_) => Ok(Line::Block),
        Err(field) => Err(Fault::Value(field)),
    }
}

// The fields after block, which ends at a.
fn block_rest(line: &[u8], a: usize) -> Result<Line, Fault>
    requires { a ≤ length line.now }
    ensures { result ≡ block_rest (fields_from line.now (a + 1)) }
{
    let mut scratch = [0i16; 1];
    let samples = read_samples(line, a + 1, 2, &mut scratch);
    block_is(samples)
}

// The fields after heard, which ends at a.
fn heard_rest(line: &[u8], a: usize) -> Result<Line, Fault>
    requires { a ≤ length line.now }
    ensures { result ≡ heard_fields (fields_from line.now (a + 1)) }
{
    if a == line.len() {
        return Err(Fault::Count(2));
    }
    let mut scratch = [0i16; 1];
    let samples = read_heard(line, a, &mut scratch);
    block_is(samples)
}

// The fields after end, which ends at a.
fn end_rest(line: &[u8], a: usize) -> Result<Line, Fault>
    requires { a ≤ length line.now }
    ensures { result ≡ end_rest (fields_from line.now (a + 1)) }
{
    if a == line.len() {
        return Ok(Line::End);
    }
    Err(Fault::Count(2))
}

// Whether a row is out of its turn.
fn late_row(came: Came) -> bool
    ensures { result ≡ late_row came }
{
    came != Came::Nothing
}

// Whether a block is.
fn late_block(came: Came) -> bool
    ensures { result ≡ late_block came }
{
    came == Came::Heards
}

// Whether a heard line is.
fn late_heard(came: Came) -> bool
    ensures { result ≡ late_heard came }
{
    came == Came::Blocks
}

// The word chooses the reader of the fields after it, by what has come before the line.
fn line_by(
    word: Word,
    line: &[u8],
    a: usize,
    n: usize,
    order: Order,
    came: Came,
) -> Result<Line, Fault>
    requires a_in_bounds { a ≤ length line.now }
    requires n_bound { n ≤ 64 }
    ensures { result ≡ line_by n order came word (fields_from line.now (a + 1)) }
{
    match word {
        Word::Cover => Err(Fault::Turn),
        Word::Mask => Err(Fault::Turn),
        Word::Row => {
            if late_row(came) {
                return Err(Fault::Turn);
            }
            let word = row_rest(line, a, n, order)?;
            Ok(Line::Row(word))
        }
        Word::Block => {
            if late_block(came) {
                return Err(Fault::Turn);
            }
            block_rest(line, a)
        }
        Word::Heard => {
            if late_heard(came) {
                return Err(Fault::Turn);
            }
            heard_rest(line, a)
        }
        Word::End => end_rest(line, a),
        Word::Other => Err(Fault::Turn),
    }
}

// A whole line after the cover.
fn read_line(line: &[u8], n: usize, order: Order, came: Came) -> Result<Line, Fault>
    requires { n ≤ 64 }
    ensures { result ≡ line_of n order came (fields line.now) }
{
    let a = until(line, 0, b'\t');
    let word = read_word(&line[..a]);
    line_by(word, line, a, n, order, came)
}

// The line from `at` to `end`, which is missing or not ended where `end` is the end of the input.
pub fn line_between(
    input: &[u8],
    at: usize,
    end: usize,
    n: usize,
    order: Order,
    came: Came,
) -> Result<Line, Fault>
    requires at_in_bounds { at ≤ length input.now }
    requires until { Until line_feed input.now at end }
    requires n_bound { n ≤ 64 }
    ensures { result ≡ front n order came (lines_from input.now at) }
{
    if end == input.len() {
        return Err(Fault::Missing);
    }
    read_line(&input[at..end], n, order, came)
}
