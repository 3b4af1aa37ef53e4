// Decoding: the word of a plate that has the greatest correlation with soft samples.
#![tactic(auto)]

ghost use Rattle.decoding.specs.Decode.{Decodes};
ghost use Rattle.plates.specs.Prepare.{lent};

use crate::prepared::decode_prepared;
use plates::{Parts, Plate, Refusal};

pub mod apart;
pub mod batch;
mod blocks;
mod choices;
pub mod cosets;
pub mod firmness;
mod live;
mod patterns;
mod prepared;
mod rooms;
mod samples;
mod search;
mod states;
mod step;
mod strips;
mod sweep;
mod tables;
mod walk;

// What the steps counted: branches added, and comparisons made.
#[derive(Clone, Copy)]
pub struct Counts {
    pub additions: u64,
    pub comparisons: u64,
}

// The best word, its metric, and what the steps counted.
#[derive(Clone, Copy)]
pub struct Answer {
    pub word: u64,
    pub metric: i32,
    pub counts: Counts,
}

// The word of a prepared plate that has the greatest correlation with the samples, of equals the one with 0 at the first difference. The
// plate is lent in parts: rows and profile are 64 and 65 words.
pub fn decode_parts<'a>(
    plate: Parts<'a>,
    samples: &[i16],
    metrics: &mut [i32],
    decisions: &mut [u64],
) -> Result<Answer, Refusal>
    ensures { Decodes (lent plate.entry) samples.now metrics.old decisions.old metrics.new decisions.new result }
{
    if plates::parts_prepared(plate) {
        return decode_prepared(plate, samples, metrics, decisions);
    }
    Err(Refusal::NotPrepared)
}

// The same of a plate by value.
pub fn decode(
    plate: Plate,
    samples: &[i16],
    metrics: &mut [i32],
    decisions: &mut [u64],
) -> Result<Answer, Refusal>
    ensures { Decodes plate samples.now metrics.old decisions.old metrics.new decisions.new result }
{
    let profile = plates::widened(plate.profile);
    decode_parts(plate.lend(&profile), samples, metrics, decisions)
}
