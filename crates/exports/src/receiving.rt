// The calls of a receiver over the C interface: a block decoded whole, its best metric or its best word alone, many blocks
// in one call, how firm one position is, and why a word was not chosen.
ghost use Rattle.exports.specs.Batches.{CallsDecodeBlocks, batch_cells};
ghost use Rattle.exports.specs.Explaining.{CallsWhyNot, reason_cells};
ghost use Rattle.exports.specs.Judging.{CallsFirmness, firmness_cells};
ghost use Rattle.exports.specs.Parting.{CallsMetric, CallsWord, metric_cells, word_cells};
ghost use Rattle.exports.specs.Promises.{CallsDecode, decode_cells};

use crate::flat::parts_of;
use crate::{MISSHAPEN, cells, reasons};

// The codeword of greatest metric.
#[unsafe(no_mangle)]
pub extern "C" fn yendrufal_decode(
    plate: &[u64],
    samples: &[i16],
    metrics: &mut [i32],
    decisions: &mut [u64],
    word: &mut [u64],
    metric: &mut [i32],
    counts: &mut [u64],
    at: &mut [u64],
) -> u64
    ensures { CallsDecode plate.now samples.now (decode_cells metrics.old decisions.old word.old metric.old counts.old at.old) result (decode_cells metrics.new decisions.new word.new metric.new counts.new at.new) }
{
    if !cells::decode_shaped(
        plate.len(),
        word.len(),
        metric.len(),
        counts.len(),
        at.len(),
    ) {
        return MISSHAPEN;
    }
    match decoding::decode_parts(parts_of(plate), samples, metrics, decisions) {
        Ok(answer) => {
            cells::put_answer(answer, word, metric, counts);
            at[0] = 0;
            0
        }
        Err(refusal) => cells::refused_at(refusal, at),
    }
}

// The greatest metric of any codeword, without its word.
#[unsafe(no_mangle)]
pub extern "C" fn yendrufal_metric(
    plate: &[u64],
    samples: &[i16],
    metrics: &mut [i32],
    metric: &mut [i32],
    counts: &mut [u64],
    at: &mut [u64],
) -> u64
    ensures { CallsMetric plate.now samples.now (metric_cells metrics.old metric.old counts.old at.old) result (metric_cells metrics.new metric.new counts.new at.new) }
{
    if !cells::part_shaped(plate.len(), metric.len(), counts.len(), at.len()) {
        return MISSHAPEN;
    }
    match decoding::apart::best_metric_parts(parts_of(plate), samples, metrics) {
        Ok(measure) => {
            cells::put_measure(measure, metric, counts);
            at[0] = 0;
            0
        }
        Err(refusal) => cells::refused_at(refusal, at),
    }
}

// The codeword of greatest metric, without that metric.
#[unsafe(no_mangle)]
pub extern "C" fn yendrufal_word(
    plate: &[u64],
    samples: &[i16],
    metrics: &mut [i32],
    decisions: &mut [u64],
    word: &mut [u64],
    counts: &mut [u64],
    at: &mut [u64],
) -> u64
    ensures { CallsWord plate.now samples.now (word_cells metrics.old decisions.old word.old counts.old at.old) result (word_cells metrics.new decisions.new word.new counts.new at.new) }
{
    if !cells::part_shaped(plate.len(), word.len(), counts.len(), at.len()) {
        return MISSHAPEN;
    }
    match decoding::apart::best_word_parts(parts_of(plate), samples, metrics, decisions) {
        Ok(selection) => {
            cells::put_selection(selection, word, counts);
            at[0] = 0;
            0
        }
        Err(refusal) => cells::refused_at(refusal, at),
    }
}

// Many blocks of one plate: each one's codeword of greatest metric, and that metric.
#[unsafe(no_mangle)]
pub extern "C" fn yendrufal_decode_blocks(
    plate: &[u64],
    samples: &[i16],
    metrics: &mut [i32],
    decisions: &mut [u64],
    words: &mut [u64],
    scores: &mut [i32],
    counts: &mut [u64],
    at: &mut [u64],
) -> u64
    ensures { CallsDecodeBlocks plate.now samples.now (batch_cells metrics.old decisions.old words.old scores.old counts.old at.old) result (batch_cells metrics.new decisions.new words.new scores.new counts.new at.new) }
{
    if !cells::batch_shaped(plate.len(), counts.len(), at.len()) {
        return MISSHAPEN;
    }
    match decoding::batch::decode_blocks(
        parts_of(plate),
        samples,
        words,
        scores,
        metrics,
        decisions,
    ) {
        Ok(counted) => {
            cells::put_counts(counted, counts);
            at[0] = 0;
            0
        }
        Err(reason) => cells::refused_at(reason, at),
    }
}

// How firmly a position was received.
#[unsafe(no_mangle)]
pub extern "C" fn yendrufal_firmness(
    plate: &[u64],
    samples: &[i16],
    position: u64,
    metrics: &mut [i32],
    decisions: &mut [u64],
    fixed: &mut [u64],
    value: &mut [i32],
    at: &mut [u64],
) -> u64
    ensures { CallsFirmness plate.now samples.now position (firmness_cells metrics.old decisions.old fixed.old value.old at.old) result (firmness_cells metrics.new decisions.new fixed.new value.new at.new) }
{
    if !cells::firmness_shaped(plate.len(), fixed.len(), value.len(), at.len()) {
        return MISSHAPEN;
    }
    match decoding::firmness::firmness_parts(
        parts_of(plate),
        samples,
        position as usize,
        metrics,
        decisions,
    ) {
        Ok(flag) => {
            cells::put_reading(flag, 0, fixed, value);
            at[0] = 0;
            0
        }
        Err(refusal) => cells::refused_at(refusal, at),
    }
}

// Why a word was not the one that decoding picks.
#[unsafe(no_mangle)]
pub extern "C" fn yendrufal_why_not(
    plate: &[u64],
    samples: &[i16],
    word: u64,
    metrics: &mut [i32],
    decisions: &mut [u64],
    reason: &mut [u64],
    difference: &mut [i32],
    at: &mut [u64],
) -> u64
    ensures { CallsWhyNot plate.now samples.now word (reason_cells metrics.old decisions.old reason.old difference.old at.old) result (reason_cells metrics.new decisions.new reason.new difference.new at.new) }
{
    if !cells::part_shaped(plate.len(), difference.len(), reason.len(), at.len()) {
        return MISSHAPEN;
    }
    match asking::why_not_parts(parts_of(plate), samples, word, metrics, decisions) {
        Ok(explained) => {
            reasons::put_reason(explained, reason, difference);
            at[0] = 0;
            0
        }
        Err(refusal) => cells::refused_at(refusal, at),
    }
}
