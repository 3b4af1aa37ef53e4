// The weights of a plate: how many codewords have each number of ones, and the smallest number above zero.
#![tactic(auto)]

ghost use Rattle.plates.specs.Prepare.{lent};
ghost use Rattle.weights.specs.Weights.{CountsWeights, TellsNeed};

use crate::rooms::{are_short, find_least, half_of};
use crate::tallies::tally;
use plates::{Parts, Plate, Refusal};

mod rooms;
mod states;
mod tallies;

// The number of codewords of each weight into the first 65 counts. The working room needs 130 * 2^m numbers, m being the largest profile
// entry.
pub fn count_weights_parts<'a>(
    plate: Parts<'a>,
    counts: &mut [u64],
    working: &mut [u64],
) -> Result<Option<usize>, Refusal>
    ensures { CountsWeights (lent plate.entry) counts.old working.old counts.new working.new result }
{
    if !plates::parts_prepared(plate) {
        return Err(Refusal::NotPrepared);
    }
    let half = half_of(plate.n, plate.profile);
    let need = half + half;
    let short = are_short(counts.len(), working.len(), need);
    if plate.k == 64 {
        return Err(Refusal::WholeSpace);
    }
    if short {
        return Err(Refusal::MetricRoom);
    }
    tally(
        &plate.rows[..plate.k],
        plate.n,
        half,
        &mut working[..need],
        &mut *counts,
    );
    Ok(find_least(&*counts))
}

// The weights of a plate by value.
pub fn count_weights(
    plate: Plate,
    counts: &mut [u64],
    working: &mut [u64],
) -> Result<Option<usize>, Refusal>
    ensures { CountsWeights plate counts.old working.old counts.new working.new result }
{
    let profile = plates::widened(plate.profile);
    count_weights_parts(plate.lend(&profile), counts, working)
}

// How many numbers of working room the counting of a plate needs, and 0 for a plate that is not prepared.
pub fn working_need(plate: Plate) -> usize
    ensures { TellsNeed plate result }
{
    if !plates::is_prepared(plate) {
        return 0;
    }
    let entries = plate.profile;
    let profile = plates::widened(entries);
    let half = half_of(plate.n, &profile);
    half + half
}
