// Many blocks of one plate in one call: each is decoded for itself, and the plate is tested once.
ghost use Rattle.std.specs.Prelude.{length, take, ◌<◌};
ghost use Rattle.decoding.specs.Batch.{DecodesBlocks};
ghost use Rattle.decoding.specs.Batching.{AreBlocks, BlockFits, BlockPut, BlocksFit, BlocksPut};
ghost use Rattle.decoding.specs.LiveRows.{EndsAre};
ghost use Rattle.decoding.specs.Searching.{Searched};
ghost use Rattle.decoding.specs.Sweeping.{RoomsFit, SizesFit};
ghost use Rattle.plates.specs.Prepare.{IsPrepared, lent};

use crate::live::ending_rows;
use crate::rooms::sizes_of;
use crate::samples::first_over;
use crate::sweep::{Forced, Sizes, sweep};
use crate::walk::read_off;
use crate::{Answer, Counts};
use plates::{Parts, Refusal};

// Whether so many samples are as many blocks of n as there are words lent, and the metrics lent are as many.
fn are_blocks(samples: usize, n: usize, words: usize, scores: usize) -> bool
    requires { 0 < n }
    ensures { AreBlocks samples n words scores result }
{
    if samples % n != 0 {
        return false;
    }
    if samples / n != words {
        return false;
    }
    scores == words
}

// The same as `search`, which decoding alone calls: a function that is called from one place is compiled into its caller and has no stack of
// its own, which decoding on the controller cannot spare.
fn search_block(
    rows: &[u64],
    sizes: Sizes,
    ends: &[u8; 64],
    samples: &[i16],
    metrics: &mut [i32],
    decisions: &mut [u64],
) -> Answer
    requires sizes_fit { SizesFit rows.now sizes }
    requires ends_are { EndsAre (take sizes.k rows.now) ends.now }
    requires rooms_fit { RoomsFit sizes samples.now metrics.old decisions.old }
    requires words_nonzero { 0 < sizes.words }
    ensures { Searched rows.now sizes samples.now metrics.old decisions.old metrics.new decisions.new result }
{
    let none = Forced {
        position: sizes.n,
        gain: 0,
    };
    let at = sweep(rows, sizes, ends, samples, none, metrics, decisions);
    let word = read_off(rows, sizes, ends, samples, decisions);
    Answer {
        word,
        metric: metrics[at.from],
        counts: at.counts,
    }
}

// A block searched: its word and metric are stored at their place, and its counts replied.
fn put_block(
    rows: &[u64],
    sizes: Sizes,
    ends: &[u8; 64],
    block: &[i16],
    at: usize,
    found: &mut [u64],
    scores: &mut [i32],
    metrics: &mut [i32],
    decisions: &mut [u64],
) -> Counts
    requires sizes_fit { SizesFit rows.now sizes }
    requires ends_are { EndsAre (take sizes.k rows.now) ends.now }
    requires block_fits { BlockFits sizes block.now at found.old scores.old metrics.old decisions.old }
    ensures { BlockPut rows.now sizes block.now at found.old scores.old metrics.old decisions.old found.new scores.new metrics.new decisions.new result }
{
    let answer = search_block(rows, sizes, ends, block, metrics, decisions);
    found[at] = answer.word;
    scores[at] = answer.metric;
    answer.counts
}

// All blocks, from the first to the last; where the rows end is found once.
fn put_blocks(
    rows: &[u64],
    sizes: Sizes,
    samples: &[i16],
    found: &mut [u64],
    scores: &mut [i32],
    metrics: &mut [i32],
    decisions: &mut [u64],
) -> Counts
    requires sizes_fit { SizesFit rows.now sizes }
    requires blocks_fit { BlocksFit sizes samples.now found.old scores.old metrics.old decisions.old }
    ensures { BlocksPut rows.now sizes samples.now found.old scores.old metrics.old decisions.old (length found.old) found.new scores.new metrics.new decisions.new result }
{
    let ends = ending_rows(rows, sizes.k);
    let mut counts = Counts {
        additions: 0,
        comparisons: 0,
    };
    for at in 0..found.len() {
        let begin = at * sizes.n;
        let end = begin + sizes.n;
        counts = put_block(
            rows,
            sizes,
            &ends,
            &samples[begin..end],
            at,
            found,
            scores,
            metrics,
            decisions,
        );
    }
    counts
}

// The blocks of a prepared plate.
fn blocks_prepared<'a>(
    plate: Parts<'a>,
    samples: &[i16],
    found: &mut [u64],
    scores: &mut [i32],
    metrics: &mut [i32],
    decisions: &mut [u64],
) -> Result<Counts, Refusal>
    requires { IsPrepared (lent plate) }
    ensures { DecodesBlocks (lent plate.entry) samples.now found.old scores.old metrics.old decisions.old found.new scores.new metrics.new decisions.new result }
{
    if !are_blocks(samples.len(), plate.n, found.len(), scores.len()) {
        return Err(Refusal::SampleCount);
    }
    if let Some(over) = first_over(samples) {
        return Err(Refusal::SampleRange(over));
    }
    let sizes = sizes_of(plate);
    let metric_need = sizes.half + sizes.half;
    let decision_need = plate.n * sizes.words;
    if metrics.len() < metric_need {
        return Err(Refusal::MetricRoom);
    }
    if decisions.len() < decision_need {
        return Err(Refusal::DecisionRoom);
    }
    let counts = put_blocks(
        plate.rows, sizes, samples, found, scores, metrics, decisions,
    );
    metrics[..metric_need].fill(0);
    decisions[..decision_need].fill(0);
    Ok(counts)
}

// Decodes every block of a run of samples, n of them a block: each block's word and metric go to their places in what is lent for them. The
// counts, which are the same for each block, are 0 where there is none.
pub fn decode_blocks<'a>(
    plate: Parts<'a>,
    samples: &[i16],
    found: &mut [u64],
    scores: &mut [i32],
    metrics: &mut [i32],
    decisions: &mut [u64],
) -> Result<Counts, Refusal>
    ensures { DecodesBlocks (lent plate.entry) samples.now found.old scores.old metrics.old decisions.old found.new scores.new metrics.new decisions.new result }
{
    if plates::parts_prepared(plate) {
        return blocks_prepared(plate, samples, found, scores, metrics, decisions);
    }
    Err(Refusal::NotPrepared)
}
