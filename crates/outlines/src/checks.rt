// Parity checks as alist text, from bytes to bytes: those of a sheet as alist text, and alist text as a sheet.
ghost use Rattle.std.specs.Prelude.{length, take, ◌≤◌};
ghost use Rattle.alists.specs.Calls.{WritesAlist};
ghost use Rattle.listings.specs.Writing.{WritesLine};
ghost use Rattle.outlines.specs.AlistText.{WritesAlistOf, WritesChecks, WritesFromAlist, checks_of, checks_sheet};
ghost use Rattle.plates.specs.Prepare.{IsPrepared, rows_of};

use crate::opening;
use crate::opening::Which;
use plates::{Kind, Plate, Refusal};
use sheets::Sheet;

// The rows of a plate as alist text.
fn put_rows_of(plate: Plate, room: &mut [u8]) -> Result<usize, Refusal>
    requires { IsPrepared plate }
    ensures { WritesAlist plate.n (rows_of plate) room.old result room.new }
{
    let table = plate.rows;
    let k = plate.k;
    alists::write(plate.n, &table[..k], room)
}

// The parity checks of a matrix as alist text: its rows where they are checks, else the rows of the dual's plate.
fn put_checks(kind: Kind, rows: &[u64], dual: Plate, room: &mut [u8]) -> Result<usize, Refusal>
    requires { IsPrepared dual }
    ensures { WritesAlist dual.n (checks_of kind rows.now (rows_of dual)) room.old result room.new }
{
    match kind {
        Kind::G => put_rows_of(dual, room),
        Kind::H => alists::write(dual.n, rows, room),
    }
}

// The parity checks of a sheet, whose rows stand at the start of the table, as alist text.
fn write_checks(sheet: Sheet, table: &[u64; 64], room: &mut [u8]) -> Result<usize, Refusal>
    requires { sheet.rows ≤ length table.now }
    ensures { WritesChecks sheet.n sheet.kind (take sheet.rows table.now) room.old result room.new }
{
    let dual = opening::prepared_of(Which::Dual, sheet, table);
    dual.verdict?;
    let rows = &table[..];
    let count = sheet.rows;
    put_checks(sheet.kind, &rows[..count], dual.plate, room)
}

// The parity checks of an input's code as alist text; its mask is passed over. A refusal is the input's, its matrix's, 16 at place 0 where
// there are no checks, or 11 where the room is too short.
pub fn write_alist(input: &[u8], room: &mut [u8]) -> Result<usize, Refusal>
    ensures { WritesAlistOf input.now room.old result room.new }
{
    let mut table = [0; 64];
    let sheet = sheets::read_sheet(input, &mut table)?;
    write_checks(sheet, &table, room)
}

// The first rows of a table as a sheet of parity checks.
fn put_matrix(n: usize, count: usize, table: &[u64; 64], room: &mut [u8]) -> Result<usize, Refusal>
    requires n_bound { n ≤ 64 }
    requires count_bound { count ≤ 64 }
    requires count_in_bounds { count ≤ length table.now }
    ensures { WritesLine (checks_sheet n (take count table.now)) room.old result room.new }
{
    let rows = &table[..];
    crate::put_sheet(Kind::H, n, 0, &rows[..count], room)
}

// An alist text as a sheet of parity checks by position. A refusal is 15 where the text is over 32,768 bytes, 16 with its first faulty line, or 11.
pub fn write_from_alist(input: &[u8], room: &mut [u8]) -> Result<usize, Refusal>
    ensures { WritesFromAlist input.now room.old result room.new }
{
    if 32768 < input.len() {
        return Err(Refusal::InputTooLong);
    }
    let mut table = [0; 64];
    let matrix = alists::read(input, &mut table)?;
    put_matrix(matrix.n, matrix.count, &table, room)
}
