// What crosses the interface besides a plate: kinds, places, lengths of lines, answers.
ghost use Rattle.std.specs.Prelude.{◌≡◌, ◌<◌, ◌≤◌, length};
ghost use Rattle.exports.specs.Batches.{BatchTested};
ghost use Rattle.exports.specs.Calls.{RefusedAt};
ghost use Rattle.exports.specs.Crossing.{AnswerPut, LengthPut, counts_put};
ghost use Rattle.exports.specs.Judging.{FirmnessTested, FixedFits, ReadingPut};
ghost use Rattle.exports.specs.Parting.{MeasurePut, PartTested, SelectionPut};
ghost use Rattle.exports.specs.Promises.{ShapeTested, kind_of};

use decoding::apart::{Measure, Selection};
use decoding::firmness::{Flag, Reading};
use decoding::{Answer, Counts};
use plates::{Kind, Refusal};

// The number of a refusal, with its place in the first cell.
pub fn refused_at(refusal: Refusal, at: &mut [u64]) -> u64
    requires { 1 ≤ length at.old }
    ensures { RefusedAt refusal at.old result at.new }
{
    at[0] = plates::refusal_place(refusal) as u64;
    plates::refusal_number(refusal)
}

// How a matrix is meant: 0 is G and 1 is H.
pub fn kind_of(kind: u64) -> Kind
    ensures { result ≡ kind_of kind }
{
    if kind == 0 {
        return Kind::G;
    }
    Kind::H
}

// Whether the runs that are lent to decode are long enough for their fixed use.
pub fn decode_shaped(plate: usize, word: usize, metric: usize, counts: usize, at: usize) -> bool
    ensures { ShapeTested plate word metric counts at result }
{
    if plate < 132 {
        return false;
    }
    if word < 1 {
        return false;
    }
    if metric < 1 {
        return false;
    }
    if counts < 2 {
        return false;
    }
    1 <= at
}

// Whether the runs that are lent to the metric call, or to the word call, are long enough for their fixed use.
pub fn part_shaped(plate: usize, best: usize, counts: usize, at: usize) -> bool
    ensures { PartTested plate best counts at result }
{
    if plate < 132 {
        return false;
    }
    if best < 1 {
        return false;
    }
    if counts < 2 {
        return false;
    }
    1 <= at
}

// Whether the runs that are lent to a batch are long enough for their fixed use.
pub fn batch_shaped(plate: usize, counts: usize, at: usize) -> bool
    ensures { BatchTested plate counts at result }
{
    if plate < 132 {
        return false;
    }
    if counts < 2 {
        return false;
    }
    1 <= at
}

// Whether the runs that are lent to firmness are long enough for their fixed use.
pub fn firmness_shaped(plate: usize, fixed: usize, value: usize, at: usize) -> bool
    ensures { FirmnessTested plate fixed value at result }
{
    if plate < 132 {
        return false;
    }
    if fixed < 1 {
        return false;
    }
    if value < 1 {
        return false;
    }
    1 <= at
}

// The two counts into the first two cells.
pub fn put_counts(counted: Counts, counts: &mut [u64])
    requires { 2 ≤ length counts.old }
    ensures { counts.new ≡ counts_put counts.old counted }
{
    counts[0] = counted.additions;
    counts[1] = counted.comparisons;
}

// The answer of decoding into its cells.
pub fn put_answer(answer: Answer, word: &mut [u64], metric: &mut [i32], counts: &mut [u64])
    requires { (1 ≤ length word.old) × (1 ≤ length metric.old) × (2 ≤ length counts.old) }
    ensures { AnswerPut answer word.old metric.old counts.old word.new metric.new counts.new }
{
    let best = answer.metric;
    word[0] = answer.word;
    metric[0] = best;
    put_counts(answer.counts, counts);
}

// The best metric and what was counted, into their cells.
pub fn put_measure(measure: Measure, metric: &mut [i32], counts: &mut [u64])
    requires { (1 ≤ length metric.old) × (2 ≤ length counts.old) }
    ensures { MeasurePut measure metric.old counts.old metric.new counts.new }
{
    let best = measure.metric;
    metric[0] = best;
    put_counts(measure.counts, counts);
}

// The best word and what was counted, into their cells.
pub fn put_selection(selection: Selection, word: &mut [u64], counts: &mut [u64])
    requires { (1 ≤ length word.old) × (2 ≤ length counts.old) }
    ensures { SelectionPut selection word.old counts.old word.new counts.new }
{
    word[0] = selection.word;
    put_counts(selection.counts, counts);
}

// A reading into the cells at a place: 1 where it is fixed and 0 where it is open, and its bit or its margin.
pub fn put_reading(flag: Flag, place: usize, fixed: &mut [u64], value: &mut [i32])
    requires { (place < length fixed.old) × (place < length value.old) × FixedFits flag.reading }
    ensures { ReadingPut flag.reading place fixed.old value.old fixed.new value.new }
{
    let reading = flag.reading;
    match reading {
        Reading::Fixed(bit) => {
            let shown = bit as i32;
            fixed[place] = 1;
            value[place] = shown;
        }
        Reading::Open(margin) => {
            fixed[place] = 0;
            value[place] = margin;
        }
    }
}

// The length of a line that was written, in the first cell, or why it was refused.
pub fn written_length(reply: Result<usize, Refusal>, size: &mut [u64]) -> u64
    requires { 1 ≤ length size.old }
    ensures { LengthPut reply size.old result size.new }
{
    match reply {
        Ok(bytes) => {
            size[0] = bytes as u64;
            0
        }
        Err(refusal) => plates::refusal_number(refusal),
    }
}
