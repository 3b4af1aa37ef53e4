// Decoding parted in two: the metric without the word, and the word without its metric.
ghost use Rattle.decoding.specs.Apart.{Chooses, Measures};
ghost use Rattle.plates.specs.Prepare.{lent};

use crate::Counts;
use crate::rooms::sizes_of;
use crate::samples::first_over;
use crate::search::search_metric;
use plates::{Parts, Refusal};

// The best metric, and what the steps counted.
#[derive(Clone, Copy)]
pub struct Measure {
    pub metric: i32,
    pub counts: Counts,
}

// The best word, and what the steps counted.
#[derive(Clone, Copy)]
pub struct Selection {
    pub word: u64,
    pub counts: Counts,
}

// The greatest correlation that any word of a prepared plate has with the samples; no decision is kept.
pub fn best_metric_parts<'a>(
    plate: Parts<'a>,
    samples: &[i16],
    metrics: &mut [i32],
) -> Result<Measure, Refusal>
    ensures { Measures (lent plate.entry) samples.now metrics.old metrics.new result }
{
    if !plates::parts_prepared(plate) {
        return Err(Refusal::NotPrepared);
    }
    if samples.len() != plate.n {
        return Err(Refusal::SampleCount);
    }
    if let Some(over) = first_over(samples) {
        return Err(Refusal::SampleRange(over));
    }
    let sizes = sizes_of(plate);
    let metric_need = sizes.half + sizes.half;
    if metrics.len() < metric_need {
        return Err(Refusal::MetricRoom);
    }
    let measure = search_metric(plate.rows, sizes, samples, metrics);
    metrics[..metric_need].fill(0);
    Ok(measure)
}

// The word that decoding finds, without its metric.
pub fn best_word_parts<'a>(
    plate: Parts<'a>,
    samples: &[i16],
    metrics: &mut [i32],
    decisions: &mut [u64],
) -> Result<Selection, Refusal>
    ensures { Chooses (lent plate.entry) samples.now metrics.old decisions.old metrics.new decisions.new result }
{
    let answer = crate::decode_parts(plate, samples, metrics, decisions)?;
    Ok(Selection {
        word: answer.word,
        counts: answer.counts,
    })
}
