// The line of a refusal, to standard output.
ghost use Rattle.listings.specs.Writing.{WritesLine};
ghost use Rattle.programs.specs.Verbs.{RefusedEnding};
ghost use Rattle.reports.specs.Report.{line_of_refusal};

use crate::endings::Ending;
use crate::writer;
use crate::writer::Output;
use plates::Refusal;
use std::io::Write;

// Makes the line of a refusal.
pub fn make_refused(refusal: Refusal, room: &mut [u8]) -> Result<usize, Refusal>
    ensures { WritesLine (line_of_refusal refusal) room.old result room.new }
{
    let number = plates::refusal_number(refusal);
    let place = plates::refusal_place(refusal) as u64;
    let field = plates::refusal_field(refusal) as u64;
    listings::write_refused(number, place, field, room)
}

// How a run ends that prints the line of a refusal, and nothing more.
pub fn print_refused<W: Write>(output: &mut Output<W>, refusal: Refusal) -> Ending
    ensures { RefusedEnding refusal result }
{
    let mut room = [0; 256];
    let written = make_refused(refusal, &mut room);
    let Ok(size) = written else {
        return Ending::Unwritten;
    };
    match writer::hand_refusal(output, writer::none(), refusal, &room, size) {
        Some(sent) => Ending::Refused(refusal, sent),
        None => Ending::Unwritten,
    }
}
