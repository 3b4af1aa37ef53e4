// All positions of a block judged in one call over the C interface.
ghost use Rattle.std.specs.Prelude.{get_or, length, ◌<◌, ◌≤◌};
ghost use Rattle.exports.specs.Flat.{plate_of};
ghost use Rattle.exports.specs.Reading.{CallsFirmnessAll, PutsPosition, ReadsOn, firm_rooms, position_cells};

use crate::flat::parts_of;
use crate::{MISSHAPEN, cells};
use plates::Refusal;

// The reading of one position, into its cells, or why there is none.
fn put_position(
    plate: &[u64],
    samples: &[i16],
    position: usize,
    metrics: &mut [i32],
    decisions: &mut [u64],
    fixed: &mut [u64],
    values: &mut [i32],
) -> Result<(), Refusal>
    requires { (132 ≤ length plate.now) × (position < length fixed.old) × (position < length values.old) }
    ensures { PutsPosition (plate_of plate.now) samples.now position (firm_rooms metrics.old decisions.old fixed.old values.old) (firm_rooms metrics.new decisions.new fixed.new values.new) result }
{
    let flag = decoding::firmness::firmness_parts(
        parts_of(plate),
        samples,
        position,
        metrics,
        decisions,
    )?;
    cells::put_reading(flag, position, fixed, values);
    Ok(())
}

// The readings of the positions from 1 on.
fn put_others(
    plate: &[u64],
    samples: &[i16],
    metrics: &mut [i32],
    decisions: &mut [u64],
    fixed: &mut [u64],
    values: &mut [i32],
)
    requires in_bounds { (132 ≤ length plate.now) × (64 ≤ length fixed.old) × (64 ≤ length values.old) }
    requires bound { (1 ≤ get_or plate.now 0 0) × (get_or plate.now 0 0 ≤ 64) }
    ensures { ReadsOn (plate_of plate.now) samples.now 1 (get_or plate.now 0 0) (firm_rooms metrics.old decisions.old fixed.old values.old) (firm_rooms metrics.new decisions.new fixed.new values.new) }
{
    let n = plate[0] as usize;
    for i in 1..n {
        let _ = put_position(
            plate,
            samples,
            i,
            &mut *metrics,
            &mut *decisions,
            &mut *fixed,
            &mut *values,
        );
    }
}

// How firmly each position was received. What is refused is refused at position 0, before anything is put.
#[unsafe(no_mangle)]
pub extern "C" fn yendrufal_firmness_all(
    plate: &[u64],
    samples: &[i16],
    metrics: &mut [i32],
    decisions: &mut [u64],
    fixed: &mut [u64],
    values: &mut [i32],
    at: &mut [u64],
) -> u64
    ensures { CallsFirmnessAll plate.now samples.now (position_cells (firm_rooms metrics.old decisions.old fixed.old values.old) at.old) result (position_cells (firm_rooms metrics.new decisions.new fixed.new values.new) at.new) }
{
    if plate.len() < 132 {
        return MISSHAPEN;
    }
    if fixed.len() < 64 {
        return MISSHAPEN;
    }
    if values.len() < 64 {
        return MISSHAPEN;
    }
    if at.len() < 1 {
        return MISSHAPEN;
    }
    match put_position(
        plate,
        samples,
        0,
        &mut *metrics,
        &mut *decisions,
        &mut *fixed,
        &mut *values,
    ) {
        Ok(()) => {
            put_others(plate, samples, metrics, decisions, fixed, values);
            at[0] = 0;
            0
        }
        Err(refusal) => cells::refused_at(refusal, at),
    }
}
