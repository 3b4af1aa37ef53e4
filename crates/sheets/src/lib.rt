// The sheet: its grammar as definitions, and its reader.
#![tactic(auto)]

ghost use Rattle.std.specs.Prelude.{◌≡◌};
ghost use Rattle.sheets.specs.Blocks.{ReadsBlock, counter_at};
ghost use Rattle.sheets.specs.Sheet.{ReadsSheet};

use block::block_at;
use body::read_body;
use counter::counter_at;
use head::read_head;
use placing::place_samples;
use plates::{Kind, Refusal};

mod block;
mod body;
mod counter;
mod cover;
mod head;
mod line;
pub mod listed;
mod mask;
mod number;
mod placing;
mod row;
mod scan;
mod word;

// Where position 0 stands in a row or mask, among listed samples and in a printed word: with first at the left, with last at the right.
#[derive(Clone, Copy)]
pub enum Order {
    First,
    Last,
}

// What a sheet that is not refused says: its cover, its mask (0 where it has no mask line), the number of its rows, where the line after them
// begins (its first block or heard line, or end where it has none), whether these are heard lines, and their number.
#[derive(Clone, Copy)]
pub struct Sheet {
    pub n: usize,
    pub kind: Kind,
    pub order: Order,
    pub mask: u64,
    pub rows: usize,
    pub start: usize,
    pub heard: bool,
    pub blocks: usize,
}

// A block or heard line: the number of its samples, and where the next line begins.
#[derive(Clone, Copy)]
pub struct SampleLine {
    pub samples: usize,
    pub next: usize,
}

// Reads a whole sheet. The words of its rows go into the table; where the input is refused the table stays as it was.
pub fn read_sheet(input: &[u8], table: &mut [u64; 64]) -> Result<Sheet, Refusal>
    ensures { ReadsSheet input.now table.old result table.new }
{
    if 32768 < input.len() {
        return Err(Refusal::InputTooLong);
    }
    let (cover, from) = read_head(input)?;
    read_body(input, from, cover, table)
}

// Reads the block line, or on a sheet of heard lines the heard line, that begins at a place of a sheet in the cover's order: its samples go into the places of their positions, or are left
// out where they are more than 64, and are counted in any case.
pub fn read_block(
    heard: bool,
    input: &[u8],
    at: usize,
    order: Order,
    room: &mut [i16; 64],
) -> Option<SampleLine>
    ensures { ReadsBlock heard input.now at order room.old result room.new }
{
    let reply = block_at(heard, input, at);
    let Some(SampleLine { samples, next }) = reply else {
        return None;
    };
    let end = next - 1;
    place_samples(heard, &input[at..end], samples, order, room);
    Some(SampleLine { samples, next })
}

// Reads the counter of the heard line that begins at a place: 0 where none begins there.
pub fn read_counter(input: &[u8], at: usize) -> u16
    ensures { result ≡ counter_at input.now at }
{
    counter_at(input, at)
}
