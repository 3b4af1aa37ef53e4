// A whole listing, line after line in one lent room.
ghost use Rattle.std.specs.Prelude.{◌≡◌, ◌≤◌};
ghost use Rattle.reports.specs.Listing.{BeforeLine, BeforeLines, LineAdded, LinesAdded, bytes_of};
ghost use Rattle.reports.specs.Remaining.{count_at, rooms};

use crate::{Report, Stage, next_line};
use plates::Refusal;

// How far a listing is: the report of what is left, and how many bytes are written.
#[derive(Clone, Copy)]
pub struct Progress {
    pub report: Report,
    pub size: usize,
}

// How many lines a report gives that was just opened.
pub fn lines_of(report: Report) -> usize
    requires { report.blocks ≤ 32769 }
    ensures { result ≡ count_at report.stage report.heard report.blocks }
{
    let blocks = report.blocks + usize::from(report.heard);
    let stage = report.stage;
    match stage {
        Stage::Refused(_) => 1,
        Stage::PlateLine => blocks + 3,
        Stage::ProfileLine => blocks + 2,
        Stage::BlockLines => blocks + 1,
        Stage::EndLine => 1,
        Stage::Done => 0,
    }
}

// Of how many bytes the line is that a step gave; 0 where it gave none.
fn bytes_of(outcome: Result<Option<usize>, Refusal>) -> usize
    ensures { result ≡ bytes_of outcome }
{
    match outcome {
        Ok(Some(size)) => size,
        _ => 0,
    }
}

// One line more, behind those that stand in the room.
fn list_line(
    progress: Progress,
    input: &[u8],
    metrics: &mut [i32],
    decisions: &mut [u64],
    listing: &mut [u8],
) -> Progress
    requires { BeforeLine input.now progress (rooms metrics.old decisions.old) listing.old }
    ensures { LineAdded input.now progress (rooms metrics.old decisions.old) listing.old (rooms metrics.new decisions.new) listing.new result }
{
    let size = progress.size;
    let report = progress.report;
    let step = next_line(report, input, metrics, decisions, &mut listing[size..]);
    Progress {
        report: step.next,
        size: size + bytes_of(step.outcome),
    }
}

// All lines of a report. Gives how many bytes they are.
pub fn list_lines(
    report: Report,
    lines: usize,
    input: &[u8],
    metrics: &mut [i32],
    decisions: &mut [u64],
    listing: &mut [u8],
) -> usize
    requires { BeforeLines input.now report lines (rooms metrics.old decisions.old) listing.old }
    ensures { LinesAdded input.now report (rooms metrics.old decisions.old) listing.old (rooms metrics.new decisions.new) listing.new result }
{
    let mut progress = Progress { report, size: 0 };
    for _ in 0..lines {
        progress = list_line(
            progress,
            input,
            &mut *metrics,
            &mut *decisions,
            &mut *listing,
        );
    }
    progress.size
}
