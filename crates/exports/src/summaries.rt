// The lines of a plate's weights and of a shift's tally over the C interface.
ghost use Rattle.exports.specs.Summaries.{CallsWriteLeast, CallsWriteNoLeast, CallsWriteTally, CallsWriteWeight, tally_of};

use crate::{MISSHAPEN, cells};
use listings::Tally;

// The line `weight`.
#[unsafe(no_mangle)]
pub extern "C" fn yendrufal_write_weight(
    weight: u64,
    count: u64,
    line: &mut [u8],
    written: &mut [u64],
) -> u64
    ensures { CallsWriteWeight weight count line.old written.old result line.new written.new }
{
    if written.len() < 1 {
        return MISSHAPEN;
    }
    cells::written_length(listings::write_weight(weight, count, line), written)
}

// The line `least` with a weight.
#[unsafe(no_mangle)]
pub extern "C" fn yendrufal_write_least(weight: u64, line: &mut [u8], written: &mut [u64]) -> u64
    ensures { CallsWriteLeast weight line.old written.old result line.new written.new }
{
    if written.len() < 1 {
        return MISSHAPEN;
    }
    cells::written_length(listings::write_least(weight, line), written)
}

// The line `least` without one.
#[unsafe(no_mangle)]
pub extern "C" fn yendrufal_write_no_least(line: &mut [u8], written: &mut [u64]) -> u64
    ensures { CallsWriteNoLeast line.old written.old result line.new written.new }
{
    if written.len() < 1 {
        return MISSHAPEN;
    }
    cells::written_length(listings::write_no_least(line), written)
}

// The line `tally`.
#[unsafe(no_mangle)]
pub extern "C" fn yendrufal_write_tally(
    decoded: u64,
    refused: u64,
    repeated: u64,
    late: u64,
    missing: u64,
    opposing: u64,
    zeros: u64,
    above: u64,
    below: u64,
    line: &mut [u8],
    written: &mut [u64],
) -> u64
    ensures { CallsWriteTally (tally_of decoded refused repeated late missing opposing zeros above below) line.old written.old result line.new written.new }
{
    if written.len() < 1 {
        return MISSHAPEN;
    }
    let tally = Tally {
        decoded,
        refused,
        repeated,
        late,
        missing,
        opposing,
        zeros,
        above,
        below,
    };
    cells::written_length(listings::write_tally(tally, line), written)
}
