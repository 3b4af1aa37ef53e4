// The line of each stage of a report, but for its blocks. Each is compiled by itself: one that is inlined leaves its reports on its caller's stack
// beside those of the others, of which a listing needs one at a time.
ghost use Rattle.plates.specs.Refusals.{field, number, place};
ghost use Rattle.listings.specs.Writing.{WritesEnd, WritesPlate, WritesProfile, WritesRefused, WritesTally};
ghost use Rattle.reports.specs.Steps.{Closes, WritesStep, closed, to_blocks, to_end, to_nothing, to_profile};

use crate::steps::{at_stage, step_by};
use crate::{Report, Stage, Step};
use plates::Refusal;

// The line of a refusal, with the report after it.
pub fn refused_line(before: Report, after: Report, refusal: Refusal, room: &mut [u8]) -> Step
    ensures { WritesStep (WritesRefused (number refusal) (place refusal) (field refusal) room.old) before after result room.new }
{
    let number = plates::refusal_number(refusal);
    let place = plates::refusal_place(refusal) as u64;
    let field = plates::refusal_field(refusal) as u64;
    step_by(
        listings::write_refused(number, place, field, room),
        before,
        after,
    )
}

// The refusal of the input.
#[inline(never)]
pub fn refusal_line(report: Report, refusal: Refusal, room: &mut [u8]) -> Step
    ensures { WritesStep (WritesRefused (number refusal) (place refusal) (field refusal) room.old) report (to_nothing report) result room.new }
{
    let after = at_stage(report, Stage::Done, report.at);
    refused_line(report, after, refusal, room)
}

// The plate line.
#[inline(never)]
pub fn plate_line(report: Report, room: &mut [u8]) -> Step
    ensures { WritesStep (WritesPlate report.plate room.old) report (to_profile report) result room.new }
{
    let after = at_stage(report, Stage::ProfileLine, report.at);
    let plate = report.plate;
    step_by(listings::write_plate(plate, room), report, after)
}

// The profile line.
#[inline(never)]
pub fn profile_line(report: Report, room: &mut [u8]) -> Step
    ensures { WritesStep (WritesProfile report.plate room.old) report (to_blocks report.at report) result room.new }
{
    let after = at_stage(report, Stage::BlockLines, report.at);
    let plate = report.plate;
    step_by(listings::write_profile(plate, room), report, after)
}

// The end line.
#[inline(never)]
pub fn end_line(report: Report, room: &mut [u8]) -> Step
    ensures { WritesStep (WritesEnd report.blocks room.old) report (to_nothing report) result room.new }
{
    let after = at_stage(report, Stage::Done, report.at);
    step_by(
        listings::write_end(report.blocks as u64, room),
        report,
        after,
    )
}

// The tally line.
#[inline(never)]
fn tally_line(report: Report, room: &mut [u8]) -> Step
    ensures { WritesStep (WritesTally report.kept.tally room.old) report (to_end report) result room.new }
{
    let after = at_stage(report, Stage::EndLine, report.at);
    let kept = report.kept;
    let tally = kept.tally;
    step_by(listings::write_tally(tally, room), report, after)
}

// After the last line: the tally of heard lines, or the end line.
pub fn close_line(report: Report, room: &mut [u8]) -> Step
    ensures { WritesStep (Closes report.heard report room.old) report (closed report.heard report) result room.new }
{
    if report.heard {
        return tally_line(report, room);
    }
    end_line(report, room)
}
