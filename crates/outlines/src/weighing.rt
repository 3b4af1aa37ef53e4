// The weights of a plate, printed line by line: counted, and put into a room that has 2,048 bytes or more.
ghost use Rattle.std.specs.Prelude.{is_none, length, unwrap_or, ◌≤◌};
ghost use Rattle.listings.specs.Writing.{WritesLine};
ghost use Rattle.outlines.specs.Putting.{Puts};
ghost use Rattle.outlines.specs.WeightLines.{Weighs, last_line, weight_lines, weight_part, weights_text};
ghost use Rattle.plates.specs.Prepare.{IsPrepared};

use crate::pieces;
use plates::{Plate, Refusal};

// The line of a weight, where its count is above 0.
fn put_weight(room: &mut [u8], at: usize, weight: usize, count: u64) -> usize
    ensures { Puts room.old at (weight_part weight count) room.new result }
{
    if count == 0 {
        return at;
    }
    let mut line = [0; 256];
    let written = listings::write_weight(weight as u64, count, &mut line);
    let Ok(size) = written else {
        return at;
    };
    pieces::put(room, at, &line[..size])
}

// The lines of the weights in order, at the start of the room.
fn put_weights(room: &mut [u8], counts: &[u64]) -> usize
    ensures { Puts room.old 0 (weight_lines 0 counts.now) room.new result }
{
    let mut next = 0;
    for (weight, count) in counts.iter().enumerate() {
        next = put_weight(room, next, weight, *count);
    }
    next
}

// Makes the last line: the smallest weight above zero, or that there is none.
fn make_last(least: Option<usize>, line: &mut [u8]) -> Result<usize, Refusal>
    ensures { WritesLine (last_line (is_none least) (unwrap_or least 0)) line.old result line.new }
{
    match least {
        Some(weight) => listings::write_least(weight as u64, line),
        None => listings::write_no_least(line),
    }
}

// The last line.
fn put_last(room: &mut [u8], at: usize, least: Option<usize>) -> usize
    ensures { Puts room.old at (last_line (is_none least) (unwrap_or least 0)) room.new result }
{
    let mut line = [0; 256];
    let written = make_last(least, &mut line);
    let Ok(size) = written else {
        return at;
    };
    pieces::put(room, at, &line[..size])
}

// All lines, at the start of the room; their length.
fn put_lines(room: &mut [u8], counts: &[u64], least: Option<usize>) -> usize
    ensures { Puts room.old 0 (weights_text counts.now (is_none least) (unwrap_or least 0)) room.new result }
{
    let last = put_weights(room, counts);
    put_last(room, last, least)
}

// Counts the weights of a plate, and puts their lines into a room that is long enough.
fn weigh(plate: Plate, working: &mut [u64], room: &mut [u8]) -> Result<usize, Refusal>
    requires prepared { IsPrepared plate }
    requires in_bounds { 2048 ≤ length room.old }
    ensures { Weighs plate working.old room.old result working.new room.new }
{
    let mut counts = [0; 65];
    let least = weights::count_weights(plate, &mut counts, working)?;
    let size = plate.n + 1;
    Ok(put_lines(room, &counts[..size], least))
}

// The lines of a plate's weights into the room, or the first of 22, 8 and 11. Nothing lent changes before all three are passed.
pub fn put_plate(plate: Plate, working: &mut [u64], room: &mut [u8]) -> Result<usize, Refusal>
    requires { IsPrepared plate }
    ensures { Weighs plate working.old room.old result working.new room.new }
{
    if plate.k == 64 {
        return Err(Refusal::WholeSpace);
    }
    if working.len() < weights::working_need(plate) {
        return Err(Refusal::MetricRoom);
    }
    if room.len() < 2048 {
        return Err(Refusal::LineRoom);
    }
    weigh(plate, working, room)
}
