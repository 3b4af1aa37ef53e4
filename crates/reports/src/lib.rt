// From a sheet to its listing: a report is opened on the input, and gives its lines in turn or all at once.
#![tactic(auto)]

ghost use Rattle.std.specs.Prelude.{◌≡◌, ◌≤◌, length, take};
ghost use Rattle.reports.specs.Listing.{WritesListing};
ghost use Rattle.reports.specs.Remaining.{rooms};
ghost use Rattle.reports.specs.Steps.{Opens, OpensSheet, Steps, lends, nothing_kept, refused_report};

use plates::{Plate, Refusal};
use sheets::{Order, Sheet};
use tally::Kept;

mod blocks;
mod listing;
mod printing;
mod stages;
mod steps;
mod tally;

// What comes next in a report: the line of a refusal, the plate's, the profile's, those of the blocks or heard lines from a place on and
// then the tally of heard lines and the end line, the end line alone, or nothing.
#[derive(Clone, Copy)]
pub enum Stage {
    Refused(Refusal),
    PlateLine,
    ProfileLine,
    BlockLines,
    EndLine,
    Done,
}

// A report: what comes next, the prepared plate, the cover's order, the place of the next block or heard line (or of end), whether these are
// heard lines, their number, and what is kept of those that have come.
#[derive(Clone, Copy)]
pub struct Report {
    pub stage: Stage,
    pub plate: Plate,
    pub order: Order,
    pub at: usize,
    pub heard: bool,
    pub blocks: usize,
    pub kept: Kept,
}

// The outcome, and the report after it: where there is no line, the report as it was.
#[derive(Clone, Copy)]
pub struct Step {
    pub outcome: Result<Option<usize>, Refusal>,
    pub next: Report,
}

// Nothing is kept yet.
fn nothing_kept() -> Kept
    ensures { result ≡ nothing_kept }
{
    Kept {
        reference: None,
        tally: tally::none(),
    }
}

// The report that says a refusal, and nothing more.
fn refused(refusal: Refusal) -> Report
    ensures { result ≡ refused_report refusal }
{
    Report {
        stage: Stage::Refused(refusal),
        plate: Plate::zero(),
        order: Order::First,
        at: 0,
        heard: false,
        blocks: 0,
        kept: nothing_kept(),
    }
}

// The report of a sheet, whose rows stand at the start of the table.
fn of_sheet(sheet: Sheet, table: &[u64; 64]) -> Report
    requires { sheet.rows ≤ length table.now }
    ensures { OpensSheet sheet.n sheet.kind (take sheet.rows table.now) sheet.mask sheet.order sheet.start sheet.heard sheet.blocks result }
{
    let rows = &table[..];
    let count = sheet.rows;
    let kind = sheet.kind;
    let order = sheet.order;
    let prepared = plates::prepare(sheet.n, kind, &rows[..count], sheet.mask);
    let verdict = prepared.verdict;
    if let Err(refusal) = verdict {
        return refused(refusal);
    }
    let plate = prepared.plate;
    Report {
        stage: Stage::PlateLine,
        plate,
        order,
        at: sheet.start,
        heard: sheet.heard,
        blocks: sheet.blocks,
        kept: nothing_kept(),
    }
}

// The report of an input, before its first line.
pub fn open(input: &[u8]) -> Report
    ensures { Opens input.now result }
{
    let mut table = [0; 64];
    let reply = sheets::read_sheet(input, &mut table);
    match reply {
        Ok(sheet) => of_sheet(sheet, &table),
        Err(refusal) => refused(refusal),
    }
}

// The next line of a report into the room, and the report after it. The working rooms are used where a block is decoded.
pub fn next_line(
    report: Report,
    input: &[u8],
    metrics: &mut [i32],
    decisions: &mut [u64],
    room: &mut [u8],
) -> Step
    ensures { Steps report input.now (lends metrics.old decisions.old room.old) result (lends metrics.new decisions.new room.new) }
{
    let stage = report.stage;
    match stage {
        Stage::Refused(refusal) => stages::refusal_line(report, refusal, room),
        Stage::PlateLine => stages::plate_line(report, room),
        Stage::ProfileLine => stages::profile_line(report, room),
        Stage::BlockLines => blocks::block_line(report, input, metrics, decisions, room),
        Stage::EndLine => stages::end_line(report, room),
        Stage::Done => Step {
            outcome: Ok(None),
            next: report,
        },
    }
}

// The listing of an input into the room, which has to have 256 bytes for each of its lines. The working rooms have to be enough for every plate.
pub fn write_listing(
    input: &[u8],
    metrics: &mut [i32],
    decisions: &mut [u64],
    room: &mut [u8],
) -> Result<usize, Refusal>
    ensures { WritesListing input.now (rooms metrics.old decisions.old) room.old (rooms metrics.new decisions.new) room.new result }
{
    if metrics.len() < 8192 {
        return Err(Refusal::MetricRoom);
    }
    if decisions.len() < 4096 {
        return Err(Refusal::DecisionRoom);
    }
    let report = open(input);
    let lines = listing::lines_of(report);
    if room.len() / 256 < lines {
        return Err(Refusal::LineRoom);
    }
    let size = listing::list_lines(report, lines, input, metrics, decisions, room);
    Ok(size)
}
