// The verbs alist and from-alist: parity checks as text, each by one call of `outlines`, handed over whole.
ghost use Rattle.std.specs.Prelude.{take};
ghost use Rattle.programs.specs.Checks.{IsChecks, SaysChecks, WritesChecks};

use crate::endings::Ending;
use crate::writer::{Checks, Output};
use crate::{refusing, writer};
use plates::Refusal;
use std::io::Write;

// The text of an input into the room.
fn write_checks(what: Checks, input: &[u8], room: &mut [u8]) -> Result<usize, Refusal>
    ensures { WritesChecks what input.now room.old result room.new }
{
    match what {
        Checks::Alist => outlines::checks::write_alist(input, room),
        Checks::FromAlist => outlines::checks::write_from_alist(input, room),
    }
}

// Hands over the text at the start of the room.
fn hand_over<W: Write>(
    output: &mut Output<W>,
    what: Checks,
    input: &[u8],
    room: &[u8],
    size: usize,
) -> Ending
    requires { IsChecks what input.now (take size room.now) }
    ensures { SaysChecks what input.now result }
{
    match writer::hand_checks(output, writer::none(), what, input, room, size) {
        Some(sent) => Ending::Listed(sent),
        None => Ending::Unwritten,
    }
}

// Prints the text of an input, or the line of its refusal. The room is enough for every text.
pub fn print_checks<W: Write>(output: &mut Output<W>, what: Checks, input: &[u8]) -> Ending
    ensures { SaysChecks what input.now result }
{
    let mut room = [0; 32768];
    let written = write_checks(what, input, &mut room);
    match written {
        Ok(size) => hand_over(output, what, input, &room, size),
        Err(refusal) => refusing::print_refused(output, refusal),
    }
}
