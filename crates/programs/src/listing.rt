// The listing of an input, line by line to standard output.
ghost use Rattle.std.specs.Prelude.{◌≡◌, ◌+◌, take};
ghost use Rattle.reports.specs.Steps.{Opens, lends};
ghost use Rattle.reports.specs.Turns.{Enough};
ghost use Rattle.programs.specs.Ending.{Ends, PrintsAll, ending_of};
ghost use Rattle.programs.specs.Input.{StandsFor};
ghost use Rattle.programs.specs.Printing.{Before, IsLine, Prints};

use crate::endings::Ending;
use crate::writer;
use crate::writer::{Output, Sent};
use reports::{Report, Stage};
use std::io::Write;

// What a turn did: a line was taken, with the count and the report after it; or none was left.
#[derive(Clone, Copy)]
enum Turn {
    Line(Sent, Report),
    Whole,
}

// Hands over the line at the start of the room.
fn hand_over<W: Write>(
    output: &mut Output<W>,
    sent: Sent,
    input: &[u8],
    room: &[u8],
    size: usize,
    next: Report,
) -> Option<Turn>
    requires line { IsLine input.now sent.lines (take size room.now) }
    requires before { Before input.now (sent.lines + 1) next }
    ensures { Prints input.now sent result }
{
    let after = writer::hand_line(output, sent, input, room, size)?;
    Some(Turn::Line(after, next))
}

// Prints the next line, unless it is not taken.
fn print_line<W: Write>(
    output: &mut Output<W>,
    report: Report,
    sent: Sent,
    input: &[u8],
    metrics: &mut [i32],
    decisions: &mut [u64],
    room: &mut [u8],
) -> Option<Turn>
    requires enough { Enough (lends metrics.old decisions.old room.old) }
    requires before { Before input.now sent.lines report }
    ensures { Prints input.now sent result }
{
    let step = reports::next_line(report, input, metrics, decisions, &mut *room);
    let outcome = step.outcome;
    let next = step.next;
    match outcome {
        Ok(Some(size)) => hand_over(output, sent, input, room, size, next),
        Ok(None) => Some(Turn::Whole),
        Err(_) => None,
    }
}

// Prints all lines of a report that was just opened, and replies how many they are, unless one is not taken.
fn print_lines<W: Write>(
    output: &mut Output<W>,
    first: Report,
    input: &[u8],
    metrics: &mut [i32],
    decisions: &mut [u64],
    room: &mut [u8],
) -> Option<Sent>
    requires enough { Enough (lends metrics.old decisions.old room.old) }
    requires opens { Opens input.now first }
    ensures { PrintsAll input.now result }
{
    let mut report = first;
    let mut sent = writer::none();
    while let Turn::Line(after, next) = print_line(
        &mut *output,
        report,
        sent,
        input,
        &mut *metrics,
        &mut *decisions,
        &mut *room,
    )? {
        sent = after;
        report = next;
    }
    Some(sent)
}

// How a run ends whose report begins at this stage, and of which all lines were taken.
fn ending_of(stage: Stage, sent: Sent) -> Ending
    ensures { result ≡ ending_of stage sent }
{
    match stage {
        Stage::Refused(refusal) => Ending::Refused(refusal, sent),
        _ => Ending::Listed(sent),
    }
}

// Prints the listing of what was read, of which `ended` says whether it is all of the input. The rooms are enough for every input.
pub fn print_listing<W: Write>(output: &mut Output<W>, input: &[u8], ended: bool) -> Ending
    requires { StandsFor ended input.now }
    ensures { Ends ended input.now result }
{
    let mut metrics = [0; 8192];
    let mut decisions = [0; 4096];
    let mut room = [0; 256];
    let report = reports::open(input);
    let stage = report.stage;
    match print_lines(
        output,
        report,
        input,
        &mut metrics,
        &mut decisions,
        &mut room,
    ) {
        Some(sent) => ending_of(stage, sent),
        None => Ending::Unwritten,
    }
}
