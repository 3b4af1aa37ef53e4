// The verbs that print one text about an input: each by one call of `outlines`, handed over whole.
ghost use Rattle.std.specs.Prelude.{take};
ghost use Rattle.programs.specs.Verbs.{IsText, Says, WritesText};

use crate::endings::Ending;
use crate::writer::{Output, Text};
use crate::{refusing, writer};
use plates::Refusal;
use std::io::Write;

// The text of an input into the room.
fn write_text(what: Text, input: &[u8], room: &mut [u8]) -> Result<usize, Refusal>
    ensures { WritesText what input.now room.old result room.new }
{
    match what {
        Text::Sheet => outlines::write_sheet(input, room),
        Text::Dual => outlines::write_dual(input, room),
    }
}

// Hands over the text at the start of the room.
fn hand_over<W: Write>(
    output: &mut Output<W>,
    what: Text,
    input: &[u8],
    room: &[u8],
    size: usize,
) -> Ending
    requires { IsText what input.now (take size room.now) }
    ensures { Says what input.now result }
{
    match writer::hand_text(output, writer::none(), what, input, room, size) {
        Some(sent) => Ending::Listed(sent),
        None => Ending::Unwritten,
    }
}

// Prints the text of an input, or the line of its refusal. The room is enough for every text.
pub fn print_text<W: Write>(output: &mut Output<W>, what: Text, input: &[u8]) -> Ending
    ensures { Says what input.now result }
{
    let mut room = [0; 8192];
    let written = write_text(what, input, &mut room);
    match written {
        Ok(size) => hand_over(output, what, input, &room, size),
        Err(refusal) => refusing::print_refused(output, refusal),
    }
}
