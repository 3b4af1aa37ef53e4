// Decoding of a plate that has been tested.
ghost use Rattle.decoding.specs.Decode.{Decodes};
ghost use Rattle.plates.specs.Prepare.{IsPrepared, lent};

use crate::Answer;
use crate::live::ending_rows;
use crate::rooms::sizes_of;
use crate::samples::first_over;
use crate::search::search;
use plates::{Parts, Refusal};

// What decoding replies of a prepared plate: a caller that has tested the plate for itself does not have it tested again.
pub fn decode_prepared<'a>(
    plate: Parts<'a>,
    samples: &[i16],
    metrics: &mut [i32],
    decisions: &mut [u64],
) -> Result<Answer, Refusal>
    requires { IsPrepared (lent plate) }
    ensures { Decodes (lent plate.entry) samples.now metrics.old decisions.old metrics.new decisions.new result }
{
    if samples.len() != plate.n {
        return Err(Refusal::SampleCount);
    }
    if let Some(over) = first_over(samples) {
        return Err(Refusal::SampleRange(over));
    }
    let sizes = sizes_of(plate);
    let metric_need = sizes.half + sizes.half;
    let decision_need = plate.n * sizes.words;
    if metrics.len() < metric_need {
        return Err(Refusal::MetricRoom);
    }
    if decisions.len() < decision_need {
        return Err(Refusal::DecisionRoom);
    }
    let ends = ending_rows(plate.rows, sizes.k);
    let answer = search(plate.rows, sizes, &ends, samples, metrics, decisions);
    metrics[..metric_need].fill(0);
    decisions[..decision_need].fill(0);
    Ok(answer)
}
