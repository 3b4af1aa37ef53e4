// The weights of an input's plate, line by line to standard output.
use crate::endings::Ending;
use crate::writer::{Output, Sent};
use crate::{refusing, writer};
use plates::{Plate, Refusal};
use reports::Stage;
use std::io::Write;

// Hands over the line that stands in the room, by what making it replied.
fn hand_made<W: Write>(
    output: &mut Output<W>,
    sent: Sent,
    written: Result<usize, Refusal>,
    room: &[u8],
) -> Option<Sent> {
    match written {
        Ok(size) => writer::hand_weighed(output, sent, room, size),
        Err(_) => None,
    }
}

// Prints a weight that some codeword has.
fn print_weight<W: Write>(
    output: &mut Output<W>,
    sent: Sent,
    weight: usize,
    count: u64,
    room: &mut [u8],
) -> Option<Sent> {
    if count == 0 {
        return Some(sent);
    }
    let written = listings::write_weight(weight as u64, count, &mut *room);
    hand_made(output, sent, written, room)
}

// Prints the weights in order, as far as their lines are taken.
fn print_weights<W: Write>(
    output: &mut Output<W>,
    counts: &[u64],
    room: &mut [u8],
) -> Option<Sent> {
    let mut sent = writer::none();
    for (weight, count) in counts.iter().enumerate() {
        sent = print_weight(&mut *output, sent, weight, *count, &mut *room)?;
    }
    Some(sent)
}

// Makes the last line: the smallest weight above zero, or that there is none.
fn make_last(least: Option<usize>, room: &mut [u8]) -> Result<usize, Refusal> {
    match least {
        Some(weight) => listings::write_least(weight as u64, room),
        None => listings::write_no_least(room),
    }
}

// Prints the weights and the last line.
fn print_counted<W: Write>(
    output: &mut Output<W>,
    least: Option<usize>,
    counts: &[u64],
    room: &mut [u8],
) -> Option<Sent> {
    let sent = print_weights(&mut *output, counts, &mut *room)?;
    let written = make_last(least, &mut *room);
    hand_made(output, sent, written, room)
}

// Prints what was counted.
fn print_counts<W: Write>(output: &mut Output<W>, least: Option<usize>, counts: &[u64]) -> Ending {
    let mut room = [0; 256];
    match print_counted(output, least, counts, &mut room) {
        Some(sent) => Ending::Listed(sent),
        None => Ending::Unwritten,
    }
}

// Counts the weights of a plate and prints them. The working room is enough for profile entries up to 5.
fn print_plate<W: Write>(output: &mut Output<W>, plate: Plate) -> Ending {
    let mut working = [0; 4160];
    let mut counts = [0; 65];
    let counted = weights::count_weights(plate, &mut counts, &mut working);
    match counted {
        Ok(Some(weight)) => print_counts(output, Some(weight), &counts),
        Ok(None) => print_counts(output, None, &counts),
        Err(refusal) => refusing::print_refused(output, refusal),
    }
}

// Prints what an input gives: a report is opened on it for its plate.
pub fn print_input<W: Write>(output: &mut Output<W>, input: &[u8]) -> Ending {
    let report = reports::open(input);
    match report.stage {
        Stage::Refused(refusal) => refusing::print_refused(output, refusal),
        Stage::PlateLine => print_plate(output, report.plate),
        _ => Ending::Unwritten,
    }
}
