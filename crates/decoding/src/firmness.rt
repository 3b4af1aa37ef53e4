// How firmly one position of a block was received.
ghost use Rattle.std.specs.Prelude.{length, take, ◌<◌, ◌≤◌};
ghost use Rattle.decoding.specs.Firmness.{TellsFirmness};
ghost use Rattle.decoding.specs.Forcing.{BestForced, HasOne, ReadAt};
ghost use Rattle.decoding.specs.LiveRows.{EndsAre};
ghost use Rattle.decoding.specs.Sweeping.{RoomsFit, SizesFit};
ghost use Rattle.plates.specs.Prepare.{lent};

use crate::choices::sign_of;
use crate::live::ending_rows;
use crate::rooms::sizes_of;
use crate::samples::first_over;
use crate::sweep::{Forced, Sizes, gain, sweep};
use plates::{Parts, Refusal};

// What forces a position: more than all other positions together can add or take.
const FORCING: i32 = 262144;

// A position's reading: the bit that every word has there, or the margin by which 0 scores more there than 1.
#[derive(Clone, Copy)]
pub enum Reading {
    Fixed(u64),
    Open(i32),
}

// A position, and its reading.
#[derive(Clone, Copy)]
pub struct Flag {
    pub position: usize,
    pub reading: Reading,
}

// Whether one of the first k rows has a one at a position.
fn has_one(rows: &[u64], k: usize, position: usize) -> bool
    requires { k ≤ length rows.now }
    ensures { HasOne rows.now k position result }
{
    for j in 0..k {
        if words::bit_at(rows[j], position) == 1 {
            return true;
        }
    }
    false
}

// The best metric among the words that have a bit at a position: the position is forced to the bit, and its own sample added.
fn best_with(
    rows: &[u64],
    sizes: Sizes,
    ends: &[u8; 64],
    samples: &[i16],
    position: usize,
    bit: u64,
    metrics: &mut [i32],
    decisions: &mut [u64],
) -> i32
    requires sizes_fit { SizesFit rows.now sizes }
    requires ends_are { EndsAre (take sizes.k rows.now) ends.now }
    requires rooms_fit { RoomsFit sizes samples.now metrics.old decisions.old }
    requires position_lt_n { position < sizes.n }
    ensures { BestForced rows.now sizes samples.now position bit metrics.old decisions.old metrics.new decisions.new result }
{
    let forced = Forced {
        position,
        gain: sign_of(bit, FORCING),
    };
    let own = sign_of(bit, gain(samples[position]));
    let at = sweep(rows, sizes, ends, samples, forced, metrics, decisions);
    (metrics[at.from] - FORCING) + own
}

// The reading of a position, before the rooms are put to zero. Decisions are not wanted, and none are kept.
fn reading_at(
    rows: &[u64],
    sizes: Sizes,
    samples: &[i16],
    position: usize,
    metrics: &mut [i32],
    decisions: &mut [u64],
) -> Reading
    requires sizes_fit { SizesFit rows.now sizes }
    requires rooms_fit { RoomsFit sizes samples.now metrics.old decisions.old }
    requires position_lt_n { position < sizes.n }
    ensures { ReadAt rows.now sizes samples.now position metrics.old decisions.old metrics.new decisions.new result }
{
    if !has_one(rows, sizes.k, position) {
        return Reading::Fixed(words::bit_at(sizes.rest, position));
    }
    let ends = ending_rows(rows, sizes.k);
    let undecided = Sizes { words: 0, ..sizes };
    let zero = best_with(
        rows, undecided, &ends, samples, position, 0, metrics, decisions,
    );
    let one = best_with(
        rows, undecided, &ends, samples, position, 1, metrics, decisions,
    );
    Reading::Open(zero - one)
}

// How firmly a position was received: its bit where every word has the same there, else the best metric among the words with 0 there minus
// the best among those with 1.
pub fn firmness_parts<'a>(
    plate: Parts<'a>,
    samples: &[i16],
    position: usize,
    metrics: &mut [i32],
    decisions: &mut [u64],
) -> Result<Flag, Refusal>
    ensures { TellsFirmness (lent plate.entry) samples.now position metrics.old decisions.old metrics.new decisions.new result }
{
    if !plates::parts_prepared(plate) {
        return Err(Refusal::NotPrepared);
    }
    if samples.len() != plate.n {
        return Err(Refusal::SampleCount);
    }
    if let Some(over) = first_over(samples) {
        return Err(Refusal::SampleRange(over));
    }
    let sizes = sizes_of(plate);
    let metric_need = sizes.half + sizes.half;
    let decision_need = plate.n * sizes.words;
    if plate.n <= position {
        return Err(Refusal::PositionBeyond);
    }
    if metrics.len() < metric_need {
        return Err(Refusal::MetricRoom);
    }
    if decisions.len() < decision_need {
        return Err(Refusal::DecisionRoom);
    }
    let reading = reading_at(plate.rows, sizes, samples, position, metrics, decisions);
    metrics[..metric_need].fill(0);
    decisions[..decision_need].fill(0);
    Ok(Flag { position, reading })
}
