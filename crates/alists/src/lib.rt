// Parity checks as MacKay's alist text: read, and written.
#![tactic(auto)]

ghost use Rattle.alists.specs.Calls.{Reads, WritesAlist};

mod columns;
mod lists;
mod numbers;
mod pieces;
mod reading;

use plates::Refusal;

// A matrix that was read: its numbers of columns and of rows. The rows themselves are in the table.
#[derive(Clone, Copy)]
pub struct Matrix {
    pub n: usize,
    pub count: usize,
}

// Reads a parity check matrix. Its rows go into the table, with zeros behind them; where the text is refused the table stays as it was.
pub fn read(text: &[u8], table: &mut [u64; 64]) -> Result<Matrix, Refusal>
    ensures { Reads text.now table.old result table.new }
{
    reading::on_sizes(text, table)
}

// Writes a parity check matrix of n columns at the start of the room.
pub fn write(n: usize, rows: &[u64], room: &mut [u8]) -> Result<usize, Refusal>
    ensures { WritesAlist n rows.now room.old result room.new }
{
    if n == 0 || 64 < n {
        return Err(Refusal::Length);
    }
    if 64 < rows.len() {
        return Err(Refusal::TooManyRows);
    }
    if let Some(row) = columns::first_beyond(rows, n) {
        return Err(Refusal::RowBeyond(row));
    }
    let mut scratch = [0u8; 1];
    let size = pieces::put_text(n, rows, &mut scratch);
    if rows.is_empty() {
        return Err(Refusal::AlistFault(0));
    }
    if room.len() < size {
        return Err(Refusal::LineRoom);
    }
    pieces::put_text(n, rows, room);
    Ok(size)
}
