// The plate of an input, of its own code or of the dual.
ghost use Rattle.std.specs.Prelude.{length, take, ◌≡◌, ◌≤◌};
ghost use Rattle.outlines.specs.declared.opening.Which.TheVariants.{Dual};
ghost use Rattle.outlines.specs.Opening.{Opened, kind_as, mask_as};
ghost use Rattle.plates.specs.Prepare.{Prepares};

use plates::{Kind, Prepared};
use sheets::Sheet;

// Which code of an input: its own with its mask, or the dual of its code.
#[derive(Clone, Copy)]
pub enum Which {
    Own,
    Dual,
}

// As what a matrix is prepared: the dual has the same matrix under the other letter.
fn kind_as(which: Which, kind: Kind) -> Kind
    ensures { result ≡ kind_as which kind }
{
    match which {
        Which::Own => kind,
        Which::Dual => other(kind),
    }
}

// The other letter.
fn other(kind: Kind) -> Kind
    ensures { result ≡ kind_as Dual kind }
{
    match kind {
        Kind::G => Kind::H,
        Kind::H => Kind::G,
    }
}

// With which mask: the dual has none.
fn mask_as(which: Which, mask: u64) -> u64
    ensures { result ≡ mask_as which mask }
{
    match which {
        Which::Own => mask,
        Which::Dual => 0,
    }
}

// What preparing replies to a sheet, whose rows stand at the start of the table.
pub fn prepared_of(which: Which, sheet: Sheet, table: &[u64; 64]) -> Prepared
    requires { sheet.rows ≤ length table.now }
    ensures { Prepares sheet.n (kind_as which sheet.kind) (take sheet.rows table.now) (mask_as which sheet.mask) result }
{
    let rows = &table[..];
    let count = sheet.rows;
    let kind = sheet.kind;
    let mask = sheet.mask;
    plates::prepare(
        sheet.n,
        kind_as(which, kind),
        &rows[..count],
        mask_as(which, mask),
    )
}

// The plate of an input, or why the input or its matrix is refused.
pub fn opened(which: Which, input: &[u8]) -> Prepared
    ensures { Opened which input.now result }
{
    let mut table = [0; 64];
    let reply = sheets::read_sheet(input, &mut table);
    match reply {
        Ok(sheet) => prepared_of(which, sheet, &table),
        Err(refusal) => plates::refused(refusal),
    }
}
