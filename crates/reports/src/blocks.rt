// The lines of blocks and heard lines, by what decoding replies.
ghost use Rattle.std.specs.Prelude.{◌≡◌, ◌≤◌, length, take};
ghost use Rattle.listings.specs.Writing.{WritesOf};
ghost use Rattle.reports.specs.Report.{line_of_answer};
ghost use Rattle.reports.specs.Steps.{BlocksStep, DecodedStep, FoundStep, Printable, RefusedStep, RoomStep, WritesStep, decodable, is_silent, lends, of_block};
ghost use Rattle.sheets.specs.Blocks.{block_at, counter_at, next_line};

use crate::printing::printed_word;
use crate::stages::{close_line, refused_line};
use crate::steps::{after_line, refused_step, silent_step, step_by};
use crate::tally::{is_repeat, stands};
use crate::{Report, Step};
use decoding::Answer;
use plates::Refusal;
use sheets::SampleLine;

// Whether a line of this counter is a repeat, which prints no line where it is not refused.
fn is_silent(report: Report, counter: u16) -> bool
    ensures { result ≡ is_silent report counter }
{
    report.heard && is_repeat(stands(report.kept.reference, counter))
}

// The line of an answer, its word in the cover's order.
fn word_line(before: Report, after: Report, answer: Answer, room: &mut [u8]) -> Step
    requires { before.plate.n ≤ 64 }
    ensures { WritesStep (WritesOf before.plate (line_of_answer before.order before.plate answer) room.old) before after result room.new }
{
    let plate = before.plate;
    let counts = answer.counts;
    let order = before.order;
    let word = printed_word(order, plate.n, answer.word);
    step_by(
        listings::write_word(
            plate,
            word,
            answer.metric,
            counts.additions,
            counts.comparisons,
            room,
        ),
        before,
        after,
    )
}

// Whether a refusal is the block's, and printed.
fn is_of_block(refusal: Refusal) -> bool
    ensures { result ≡ of_block refusal }
{
    matches!(refusal, Refusal::SampleCount | Refusal::SampleRange(_))
}

// A block whose decoding is refused.
fn refused_block(before: Report, after: Report, refusal: Refusal, room: &mut [u8]) -> Step
    ensures { RefusedStep (of_block refusal) refusal before after room.old result room.new }
{
    if is_of_block(refusal) {
        return refused_line(before, after, refusal, room);
    }
    refused_step(refusal, before)
}

// The line of an answer, or none for a repeat.
fn found_line(silent: bool, before: Report, after: Report, answer: Answer, room: &mut [u8]) -> Step
    requires { before.plate.n ≤ 64 }
    ensures { FoundStep silent answer before after room.old result room.new }
{
    if silent {
        return silent_step(after);
    }
    word_line(before, after, answer, room)
}

// The line of what decoding replied to a line of this counter.
fn decoded_line(
    before: Report,
    after: Report,
    counter: u16,
    decoded: Result<Answer, Refusal>,
    room: &mut [u8],
) -> Step
    requires { Printable decoded before.plate }
    ensures { DecodedStep counter decoded before after room.old result room.new }
{
    match decoded {
        Ok(answer) => found_line(is_silent(before, counter), before, after, answer, room),
        Err(refusal) => refused_block(before, after, refusal, room),
    }
}

// How many of the 64 places for samples are decoded.
fn used(count: usize) -> usize
    ensures value { result ≡ decodable count }
    ensures upper_bound { result ≤ 64 }
{
    if 64 < count { 0 } else { count }
}

// The line of a block or heard line of this counter and `count` samples, after which the next line begins at `next`. Compiled by itself, as are the
// lines of the stages.
#[inline(never)]
fn samples_line(
    report: Report,
    next: usize,
    counter: u16,
    count: usize,
    samples: &[i16; 64],
    metrics: &mut [i32],
    decisions: &mut [u64],
    room: &mut [u8],
) -> Step
    requires { length samples.now ≡ 64 }
    ensures { RoomStep counter (take (decodable count) samples.now) report next (lends metrics.old decisions.old room.old) result (lends metrics.new decisions.new room.new) }
{
    if room.len() < 256 {
        return refused_step(Refusal::LineRoom, report);
    }
    let plate = report.plate;
    let taken = used(count);
    let values = &samples[..];
    let decoded = decoding::decode(plate, &values[..taken], metrics, decisions);
    let after = after_line(report, next, counter, &values[..taken], decoded);
    decoded_line(report, after, counter, decoded, room)
}

// The line of the block or heard line that begins at the report's place, or what comes after the last.
pub fn block_line(
    report: Report,
    input: &[u8],
    metrics: &mut [i32],
    decisions: &mut [u64],
    room: &mut [u8],
) -> Step
    ensures { BlocksStep (block_at report.heard input.now report.at) (counter_at input.now report.at) (next_line input.now report.at) report (lends metrics.old decisions.old room.old) result (lends metrics.new decisions.new room.new) }
{
    let mut values = [0; 64];
    let order = report.order;
    let reply = sheets::read_block(report.heard, input, report.at, order, &mut values);
    match reply {
        Some(SampleLine { samples, next }) => {
            let counter = sheets::read_counter(input, report.at);
            samples_line(
                report, next, counter, samples, &values, metrics, decisions, room,
            )
        }
        None => close_line(report, room),
    }
}
