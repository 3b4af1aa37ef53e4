// What is asked of a plate alone over the C interface: how many codewords have each weight, and its largest profile entry.
ghost use Rattle.std.specs.Prelude.{length, ◌≡◌, ◌<◌};
ghost use Rattle.decoding.specs.Needs.{widest_entry};
ghost use Rattle.plates.specs.Prepare.{lent};
ghost use Rattle.exports.specs.Weighing.{CallsWeights, CallsWidest, TellsWidest, weight_cells};

use crate::MISSHAPEN;
use crate::flat::parts_of;
use plates::{Parts, Refusal};

// The number of codewords of each weight, and the smallest weight above 0.
#[unsafe(no_mangle)]
pub extern "C" fn yendrufal_weights(
    plate: &[u64],
    counts: &mut [u64],
    working: &mut [u64],
    least: &mut [u64],
) -> u64
    ensures { CallsWeights plate.now (weight_cells counts.old working.old least.old) result (weight_cells counts.new working.new least.new) }
{
    if plate.len() < 132 {
        return MISSHAPEN;
    }
    if least.len() < 1 {
        return MISSHAPEN;
    }
    match weights::count_weights_parts(parts_of(plate), counts, working) {
        Ok(Some(weight)) => {
            least[0] = weight as u64;
            0
        }
        Ok(None) => {
            least[0] = 0;
            0
        }
        Err(refusal) => plates::refusal_number(refusal),
    }
}

// The largest of the first n + 1 profile entries.
fn widest_entry(profile: &[u64], n: usize) -> u64
    requires { n < length profile.now }
    ensures { result ≡ widest_entry profile.now n }
{
    let mut most = profile[0];
    for t in 0..n {
        most = profile[t + 1].max(most);
    }
    most
}

// The largest profile entry of a plate in parts, or why there is none.
fn width_of<'a>(plate: Parts<'a>) -> Result<u64, Refusal>
    ensures { TellsWidest (lent plate.entry) result }
{
    if !plates::parts_prepared(plate) {
        return Err(Refusal::NotPrepared);
    }
    Ok(widest_entry(plate.profile, plate.n))
}

// The largest profile entry, by which rooms are sized.
#[unsafe(no_mangle)]
pub extern "C" fn yendrufal_widest_entry(plate: &[u64], widest: &mut [u64]) -> u64
    ensures { CallsWidest plate.now widest.old result widest.new }
{
    if plate.len() < 132 {
        return MISSHAPEN;
    }
    if widest.len() < 1 {
        return MISSHAPEN;
    }
    match width_of(parts_of(plate)) {
        Ok(most) => {
            widest[0] = most;
            0
        }
        Err(refusal) => plates::refusal_number(refusal),
    }
}
