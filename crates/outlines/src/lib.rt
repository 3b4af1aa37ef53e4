// What the verbs about a plate print, from bytes to bytes: the plate of an input as a sheet by position.
#![tactic(auto)]

ghost use Rattle.std.specs.Prelude.{length, ◌≡◌, ◌≤◌};
ghost use Rattle.listings.specs.Writing.{WritesLine};
ghost use Rattle.outlines.specs.Comparing.{ComparesPlate, WritesSame, WritesTold, compared_as};
ghost use Rattle.outlines.specs.declared.opening.Which.TheVariants.{Dual, Own};
ghost use Rattle.outlines.specs.Outline.{WritesPlateSheet};
ghost use Rattle.outlines.specs.SheetText.{sheet_of, sheet_text};
ghost use Rattle.outlines.specs.WeightLines.{WritesWeights};
ghost use Rattle.plates.specs.Prepare.{IsPrepared};

pub mod checks;
mod comparing;
mod opening;
mod pieces;
mod telling;
mod weighing;

use comparing::Told;
use opening::Which;
use plates::{Kind, Plate, Refusal};

// The sheet of a matrix and a mask into the room, or refusal 11.
fn put_sheet(
    kind: Kind,
    n: usize,
    mask: u64,
    rows: &[u64],
    room: &mut [u8],
) -> Result<usize, Refusal>
    requires n_bound { n ≤ 64 }
    requires rows_len_bound { length rows.now ≤ 64 }
    ensures { WritesLine (sheet_text kind n mask rows.now) room.old result room.new }
{
    let mut scratch = [0u8; 1];
    let size = pieces::put_text(kind, n, mask, rows, &mut scratch);
    if room.len() < size {
        return Err(Refusal::LineRoom);
    }
    pieces::put_text(kind, n, mask, rows, room);
    Ok(size)
}

// The sheet of a plate into the room, or refusal 11: its rows as G, and what is left of its mask once they are taken off.
fn put_plate(plate: Plate, room: &mut [u8]) -> Result<usize, Refusal>
    requires { IsPrepared plate }
    ensures { WritesLine (sheet_of plate) room.old result room.new }
{
    let table = plate.rows;
    let k = plate.k;
    let rows = &table[..k];
    let mask = decoding::cosets::rest_of(rows, plate.mask);
    put_sheet(Kind::G, plate.n, mask, rows, room)
}

// The sheet of an input's plate, or of the dual's, into the room.
fn write_plate_of(which: Which, input: &[u8], room: &mut [u8]) -> Result<usize, Refusal>
    ensures { WritesPlateSheet which input.now room.old result room.new }
{
    let prepared = opening::opened(which, input);
    prepared.verdict?;
    put_plate(prepared.plate, room)
}

// The sheet of an input's plate by position. A refusal is the input's, its matrix's, or 11 where the room is too short.
pub fn write_sheet(input: &[u8], room: &mut [u8]) -> Result<usize, Refusal>
    ensures { WritesPlateSheet Own input.now room.old result room.new }
{
    write_plate_of(Which::Own, input, room)
}

// The sheet of the dual's plate by position; the input's mask is passed over.
pub fn write_dual(input: &[u8], room: &mut [u8]) -> Result<usize, Refusal>
    ensures { WritesPlateSheet Dual input.now room.old result room.new }
{
    write_plate_of(Which::Dual, input, room)
}

// What `write_same` replies: the length of its line, which says same or does not.
#[derive(Clone, Copy)]
pub enum Compared {
    Same(usize),
    Different(usize),
}

// Why it replies none: the first or the second input or its matrix is refused, or 11 where the room is too short.
#[derive(Clone, Copy)]
pub enum Uncompared {
    First(Refusal),
    Second(Refusal),
    Room(Refusal),
}

// The reply for a line that was written.
fn compared_as(told: Told, size: usize) -> Compared
    ensures { result ≡ compared_as told size }
{
    match told {
        Told::Same => Compared::Same(size),
        _ => Compared::Different(size),
    }
}

// The line that is told of two plates.
fn compare_plates(first: Plate, second: Plate, room: &mut [u8]) -> Result<Compared, Uncompared>
    requires prepared { IsPrepared first }
    requires prepared_2 { IsPrepared second }
    ensures { WritesTold first second room.old result room.new }
{
    let told = comparing::tell(first, second);
    match telling::write_told(first.n, told, room) {
        Ok(size) => Ok(compared_as(told, size)),
        Err(refusal) => Err(Uncompared::Room(refusal)),
    }
}

// The line that is told of a plate and the plate of an input.
fn compare_with(first: Plate, second: &[u8], room: &mut [u8]) -> Result<Compared, Uncompared>
    requires { IsPrepared first }
    ensures { ComparesPlate first second.now room.old result room.new }
{
    let prepared = opening::opened(Which::Own, second);
    let verdict = prepared.verdict;
    match verdict {
        Ok(()) => compare_plates(first, prepared.plate, room),
        Err(refusal) => Err(Uncompared::Second(refusal)),
    }
}

// Whether two inputs have the same words, as a line: same; mirrored, where the words of one are those of the other from the far end; or other, with the
// earliest word that one has alone and whose it is, and without where the lengths differ. A refusal is the first's, else the second's, else 11.
pub fn write_same(first: &[u8], second: &[u8], room: &mut [u8]) -> Result<Compared, Uncompared>
    ensures { WritesSame first.now second.now room.old result room.new }
{
    let prepared = opening::opened(Which::Own, first);
    let verdict = prepared.verdict;
    match verdict {
        Ok(()) => compare_with(prepared.plate, second, room),
        Err(refusal) => Err(Uncompared::First(refusal)),
    }
}

// The weights of an input's plate, a line for each that some codeword has, and the smallest above zero. A refusal is the input's, its matrix's, 22, 8 where
// the working room is too short, or 11 where the room has fewer than 2,048 bytes.
pub fn write_weights(input: &[u8], working: &mut [u64], room: &mut [u8]) -> Result<usize, Refusal>
    ensures { WritesWeights input.now working.old room.old result working.new room.new }
{
    let prepared = opening::opened(Which::Own, input);
    prepared.verdict?;
    weighing::put_plate(prepared.plate, working, room)
}
