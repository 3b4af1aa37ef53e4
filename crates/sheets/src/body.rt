// The lines after the cover: mask, rows, blocks or heard lines, end.
ghost use Rattle.std.specs.Prelude.{◌+◌, ◌≤◌, length, set, ◌≡◌};
ghost use Rattle.sheets.specs.Text.{fields, lines_from};
ghost use Rattle.sheets.specs.Lines.{after_end, came_after, ending_of};
ghost use Rattle.sheets.specs.Blocks.{heard_front, heard_line, is_heard};
ghost use Rattle.sheets.specs.Readers.{closed, lines_reply, RowsRead, BlocksRead, LinesRead, BodyRead};

use crate::block::block_at;
use crate::cover::Cover;
use crate::line::{Came, Fault, Line, line_between, refusal_of};
use crate::mask::mask_between;
use crate::scan::until;
use crate::word::{Word, read_word};
use crate::{Order, SampleLine, Sheet};
use plates::Refusal;

// So many lines, and where the line after them begins.
#[derive(Clone, Copy)]
pub struct Run {
    pub count: usize,
    pub next: usize,
}

// How the lines end after the rows and blocks.
#[derive(Clone, Copy)]
pub enum Ending {
    // With end, and nothing after.
    Fine,
    // The line is not end: what is wrong with it.
    NoEnd(Fault),
    // Something stands after end.
    After(Fault),
}

// The row lines from a place on: counted, and their words put into the table.
pub fn read_rows(input: &[u8], from: usize, n: usize, order: Order, table: &mut [u64]) -> Run
    requires from_in_bounds { from ≤ length input.now }
    requires n_bound { n ≤ 64 }
    ensures { RowsRead n order input.now from table.old result table.new }
{
    let mut at = from;
    let mut rows: usize = 0;
    // kept a `while`: each turn begins where the line before it was found to end
    while at < input.len() {
        let end = until(input, at, b'\n');
        let passed = Run {
            count: rows,
            next: at,
        };
        let Ok(line) = line_between(input, at, end, n, order, Came::Nothing) else {
            return passed;
        };
        let Line::Row(word) = line else {
            return passed;
        };
        words::put(table, rows, word);
        rows += 1;
        at = end + 1;
    }
    Run {
        count: rows,
        next: at,
    }
}

// Whether a word is heard.
fn is_heard(word: Word) -> bool
    ensures { result ≡ is_heard word }
{
    matches!(word, Word::Heard)
}

// Whether a line begins with heard.
fn begins_heard(line: &[u8]) -> bool
    ensures { result ≡ heard_line (fields line.now) }
{
    let end = until(line, 0, b'\t');
    let word = read_word(&line[..end]);
    is_heard(word)
}

// Whether the line at a place does.
fn heard_at(input: &[u8], at: usize) -> bool
    requires { at ≤ length input.now }
    ensures { result ≡ heard_front (lines_from input.now at) }
{
    let end = until(input, at, b'\n');
    begins_heard(&input[at..end])
}

// What has come after so many blocks or heard lines.
fn came_after(heard: bool, count: usize) -> Came
    ensures { result ≡ came_after heard count }
{
    if count == 0 {
        return Came::Nothing;
    }
    if heard {
        return Came::Heards;
    }
    Came::Blocks
}

// The block lines from a place on, or the heard lines, counted.
pub fn read_blocks(heard: bool, input: &[u8], from: usize) -> Run
    requires { from ≤ length input.now }
    ensures { BlocksRead heard input.now from result }
{
    let mut at = from;
    let mut blocks: usize = 0;
    // kept a `while`, as in `read_rows`
    while at < input.len() {
        let reply = block_at(heard, input, at);
        let Some(SampleLine { samples: _, next }) = reply else {
            return Run {
                count: blocks,
                next: at,
            };
        };
        blocks += 1;
        at = next;
    }
    Run {
        count: blocks,
        next: at,
    }
}

// What stands after end: nothing.
fn after_end(input: &[u8], at: usize) -> Ending
    requires { at ≤ length input.now }
    ensures { result ≡ after_end (lines_from input.now at) }
{
    if at == input.len() {
        return Ending::Fine;
    }
    let end = until(input, at, b'\n');
    if end == input.len() {
        return Ending::After(Fault::Missing);
    }
    Ending::After(Fault::Turn)
}

// The line at a place, which is to be end, and what stands after it.
fn read_end(input: &[u8], at: usize, n: usize, order: Order, came: Came) -> Ending
    requires at_in_bounds { at ≤ length input.now }
    requires n_bound { n ≤ 64 }
    ensures { result ≡ ending_of n order came (lines_from input.now at) }
{
    let end = until(input, at, b'\n');
    match line_between(input, at, end, n, order, came) {
        Ok(Line::End) => after_end(input, end + 1),
        Err(fault) => Ending::NoEnd(fault),
        Ok(Line::Row(_)) => Ending::NoEnd(Fault::Turn),
        Ok(Line::Block) => Ending::NoEnd(Fault::Turn),
    }
}

// A sheet by how its lines end: refused at the first bad line, or for too many rows. The rows begin with line `first`.
fn close(first: usize, sheet: Sheet, ending: Ending) -> Result<Sheet, Refusal>
    requires first_bound { first ≤ 3 }
    requires blocks_bound { sheet.rows + sheet.blocks ≤ 32768 }
    ensures { result ≡ closed first sheet ending }
{
    let rows = sheet.rows;
    let line = first + rows + sheet.blocks;
    match ending {
        Ending::NoEnd(fault) => Err(refusal_of(line, fault)),
        Ending::After(fault) => Err(refusal_of(line + 1, fault)),
        Ending::Fine => {
            if 64 < rows {
                return Err(Refusal::TooManyRows);
            }
            Ok(sheet)
        }
    }
}

// The lines after the cover and the mask, which begin at `from` with line `first`, without the words of the rows.
fn check_lines(
    input: &[u8],
    from: usize,
    first: usize,
    cover: Cover,
    mask: u64,
) -> Result<Sheet, Refusal>
    requires from_in_bounds { from ≤ length input.now }
    requires first_bound { first ≤ 3 }
    requires input_len_bound { length input.now ≤ 32768 }
    requires n_bound { cover.n ≤ 64 }
    ensures { result ≡ lines_reply from first cover mask (lines_from input.now from) }
{
    let n = cover.n;
    let kind = cover.kind;
    let order = cover.order;
    let mut scratch = [0u64; 1];
    let rows = read_rows(input, from, n, order, &mut scratch);
    let start = rows.next;
    let heard = heard_at(input, start);
    let blocks = read_blocks(heard, input, start);
    let end = blocks.next;
    let came = came_after(heard, blocks.count);
    let ending = read_end(input, end, n, order, came);
    let sheet = Sheet {
        n,
        kind,
        order,
        mask,
        rows: rows.count,
        start,
        heard,
        blocks: blocks.count,
    };
    close(first, sheet, ending)
}

// The same lines. The words of the rows go into the table only where nothing is refused.
fn read_lines(
    input: &[u8],
    from: usize,
    first: usize,
    cover: Cover,
    mask: u64,
    table: &mut [u64],
) -> Result<Sheet, Refusal>
    requires from_in_bounds { from ≤ length input.now }
    requires first_bound { first ≤ 3 }
    requires input_len_bound { length input.now ≤ 32768 }
    requires n_bound { cover.n ≤ 64 }
    ensures { LinesRead from first cover mask (lines_from input.now from) table.old result table.new }
{
    let n = cover.n;
    let order = cover.order;
    let sheet = check_lines(input, from, first, cover, mask)?;
    read_rows(input, from, n, order, table);
    Ok(sheet)
}

// The lines after the cover, which begin at `from`: the mask is line 2 where there is one, and the lines after it begin with line 3.
pub fn read_body(
    input: &[u8],
    from: usize,
    cover: Cover,
    table: &mut [u64],
) -> Result<Sheet, Refusal>
    requires from_in_bounds { from ≤ length input.now }
    requires input_len_bound { length input.now ≤ 32768 }
    requires n_bound { cover.n ≤ 64 }
    ensures { BodyRead input.now from cover table.old result table.new }
{
    let n = cover.n;
    let order = cover.order;
    let end = until(input, from, b'\n');
    match mask_between(input, from, end, n, order) {
        Ok(Some(mask)) => read_lines(input, end + 1, 3, cover, mask, table),
        Ok(None) => read_lines(input, from, 2, cover, 0, table),
        Err(fault) => Err(refusal_of(2, fault)),
    }
}
