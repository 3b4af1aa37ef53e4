// The kinds of listing line, written into a lent room. A line is built in an array of 256 bytes, which every line is proved to fit,
// and copied where the room is long enough.
#![tactic(auto)]

ghost use Rattle.std.specs.Prelude.{◌≤◌, length, drop, map};
ghost use Rattle.plates.specs.Prepare.{lent};
ghost use Rattle.listings.specs.Building.{Ends};
ghost use Rattle.listings.specs.Decimal.{decimal};
ghost use Rattle.listings.specs.Lines.{line, plate_line, profile_line, word_line};
ghost use Rattle.listings.specs.Writing.{WritesLine, WritesPlate, WritesProfile, WritesWord, WritesRefused, WritesEnd, WritesWeight, WritesLeast, WritesNoLeast, WritesTally};

mod pieces;

use plates::{Parts, Plate, Refusal};

// The numbers of a shift's tally. The sum of metrics is what those above 0 add to, less what those below 0 do.
#[derive(Clone, Copy)]
pub struct Tally {
    pub decoded: u64,
    pub refused: u64,
    pub repeated: u64,
    // Out of turn.
    pub late: u64,
    pub missing: u64,
    pub opposing: u64,
    pub zeros: u64,
    pub above: u64,
    pub below: u64,
}

// ---- a line into a room

// The line that stands from `at` to the end of the array into the room, or refusal 11.
fn write_line(line: &pieces::Line, at: usize, room: &mut [u8]) -> Result<usize, Refusal>
    requires { Ends line.now at }
    ensures { WritesLine (drop at line.now) room.old result room.new }
{
    let size = 256 - at;
    if room.len() < size {
        return Err(Refusal::LineRoom);
    }
    room[..size].copy_from_slice(&line[at..]);
    Ok(size)
}

// The line of a name and numbers, each after a tab.
fn write_numbers(name: &[u8], numbers: &[u64], room: &mut [u8]) -> Result<usize, Refusal>
    requires { length (line name.now (map decimal numbers.now)) ≤ 256 }
    ensures { WritesLine (line name.now (map decimal numbers.now)) room.old result room.new }
{
    let mut line = [0; 256];
    let first = pieces::prepend_entries(&mut line, numbers);
    let at = pieces::prepend_name(&mut line, first, name);
    write_line(&line, at, room)
}

// The line `plate`, from n, k and the profile's entries in use.
fn put_plate(n: usize, k: usize, entries: &[u64], room: &mut [u8]) -> Result<usize, Refusal>
    ensures { WritesLine (plate_line n k entries.now) room.old result room.new }
{
    let most = pieces::largest_entry(entries);
    write_numbers(b"plate", &[n as u64, k as u64, most], room)
}

// The line `profile`, from the profile's entries in use.
fn put_profile(entries: &[u64], room: &mut [u8]) -> Result<usize, Refusal>
    requires { length (profile_line entries.now) ≤ 256 }
    ensures { WritesLine (profile_line entries.now) room.old result room.new }
{
    write_numbers(b"profile", entries, room)
}

// The line `word`, from n, the word, its metric and the two counts.
fn put_word(
    n: usize,
    word: u64,
    metric: i32,
    additions: u64,
    comparisons: u64,
    room: &mut [u8],
) -> Result<usize, Refusal>
    requires { n ≤ 64 }
    ensures { WritesLine (word_line n word metric additions comparisons) room.old result room.new }
{
    let mut line = [0; 256];
    let feed = pieces::line_feed(&mut line);
    let compared = pieces::prepend_field(&mut line, feed, comparisons);
    let added = pieces::prepend_field(&mut line, compared, additions);
    let best = pieces::prepend_signed(&mut line, added, metric);
    let first = pieces::prepend_positions(&mut line, best, word, n);
    let at = pieces::prepend_name(&mut line, first, b"word");
    write_line(&line, at, room)
}

// ---- public calls

// The line `plate`: n, k and the largest profile entry.
pub fn write_plate_parts<'a>(plate: Parts<'a>, room: &mut [u8]) -> Result<usize, Refusal>
    ensures { WritesPlate (lent plate.entry) room.old result room.new }
{
    if plates::parts_prepared(plate) {
        let count = plate.n + 1;
        return put_plate(plate.n, plate.k, &plate.profile[..count], room);
    }
    Err(Refusal::NotPrepared)
}

// The line `plate` of a plate by value.
pub fn write_plate(plate: Plate, room: &mut [u8]) -> Result<usize, Refusal>
    ensures { WritesPlate plate room.old result room.new }
{
    let profile = plates::widened(plate.profile);
    write_plate_parts(plate.lend(&profile), room)
}

// The line `profile`: its entries s(0) to s(n).
pub fn write_profile_parts<'a>(plate: Parts<'a>, room: &mut [u8]) -> Result<usize, Refusal>
    ensures { WritesProfile (lent plate.entry) room.old result room.new }
{
    if plates::parts_prepared(plate) {
        let count = plate.n + 1;
        return put_profile(&plate.profile[..count], room);
    }
    Err(Refusal::NotPrepared)
}

// The line `profile` of a plate by value.
pub fn write_profile(plate: Plate, room: &mut [u8]) -> Result<usize, Refusal>
    ensures { WritesProfile plate room.old result room.new }
{
    let profile = plates::widened(plate.profile);
    write_profile_parts(plate.lend(&profile), room)
}

// The line `word`: its first n positions, the metric, additions and comparisons.
pub fn write_word_parts<'a>(
    plate: Parts<'a>,
    word: u64,
    metric: i32,
    additions: u64,
    comparisons: u64,
    room: &mut [u8],
) -> Result<usize, Refusal>
    ensures { WritesWord (lent plate.entry) word metric additions comparisons room.old result room.new }
{
    if plates::parts_prepared(plate) {
        return put_word(plate.n, word, metric, additions, comparisons, room);
    }
    Err(Refusal::NotPrepared)
}

// The line `word` of a plate by value.
pub fn write_word(
    plate: Plate,
    word: u64,
    metric: i32,
    additions: u64,
    comparisons: u64,
    room: &mut [u8],
) -> Result<usize, Refusal>
    ensures { WritesWord plate word metric additions comparisons room.old result room.new }
{
    let profile = plates::widened(plate.profile);
    write_word_parts(
        plate.lend(&profile),
        word,
        metric,
        additions,
        comparisons,
        room,
    )
}

// The line `refused`: a number and a place, and the field where the place of this number is a line and a field.
pub fn write_refused(number: u64, place: u64, field: u64, room: &mut [u8]) -> Result<usize, Refusal>
    ensures { WritesRefused number place field room.old result room.new }
{
    if pieces::names_field(number) {
        return write_numbers(b"refused", &[number, place, field], room);
    }
    write_numbers(b"refused", &[number, place], room)
}

// The line `end`: the number of block lines.
pub fn write_end(blocks: u64, room: &mut [u8]) -> Result<usize, Refusal>
    ensures { WritesEnd blocks room.old result room.new }
{
    write_numbers(b"end", &[blocks], room)
}

// The line `weight`: a weight, and how many codewords have it.
pub fn write_weight(weight: u64, count: u64, room: &mut [u8]) -> Result<usize, Refusal>
    ensures { WritesWeight weight count room.old result room.new }
{
    write_numbers(b"weight", &[weight, count], room)
}

// The line `least`: the smallest weight above zero.
pub fn write_least(weight: u64, room: &mut [u8]) -> Result<usize, Refusal>
    ensures { WritesLeast weight room.old result room.new }
{
    write_numbers(b"least", &[weight], room)
}

// The line `least` where no weight is above zero.
pub fn write_no_least(room: &mut [u8]) -> Result<usize, Refusal>
    ensures { WritesNoLeast room.old result room.new }
{
    write_numbers(b"least\tnone", &[], room)
}

// The line `tally`: the numbers of a shift, the number decoded once more at the end.
pub fn write_tally(tally: Tally, room: &mut [u8]) -> Result<usize, Refusal>
    ensures { WritesTally tally room.old result room.new }
{
    let mut line = [0; 256];
    let feed = pieces::line_feed(&mut line);
    let over = pieces::prepend_field(&mut line, feed, tally.decoded);
    let sum = pieces::prepend_less(&mut line, over, tally.above, tally.below);
    let zeros = pieces::prepend_field(&mut line, sum, tally.zeros);
    let opposing = pieces::prepend_field(&mut line, zeros, tally.opposing);
    let missing = pieces::prepend_field(&mut line, opposing, tally.missing);
    let turn = pieces::prepend_field(&mut line, missing, tally.late);
    let repeated = pieces::prepend_field(&mut line, turn, tally.repeated);
    let refused = pieces::prepend_field(&mut line, repeated, tally.refused);
    let decoded = pieces::prepend_field(&mut line, refused, tally.decoded);
    let at = pieces::prepend_name(&mut line, decoded, b"tally");
    write_line(&line, at, room)
}
