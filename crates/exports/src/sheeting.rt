// The plate of a sheet over the C interface.
ghost use Rattle.std.specs.Prelude.{◌≡◌, ◌≤◌, length};
ghost use Rattle.exports.specs.Sheeting.{CallsPlateOfSheet, RefusedIn, order_number, sheet_cells, verdict_of};

use crate::{MISSHAPEN, flat};
use plates::Refusal;
use reports::Stage;
use sheets::Order;

// Whether a report that is opened on an input refuses it.
fn verdict_of(stage: Stage) -> Result<(), Refusal>
    ensures { result ≡ verdict_of stage }
{
    match stage {
        Stage::Refused(refusal) => Err(refusal),
        Stage::PlateLine => Ok(()),
        Stage::ProfileLine => Ok(()),
        Stage::BlockLines => Ok(()),
        Stage::EndLine => Ok(()),
        Stage::Done => Ok(()),
    }
}

// The order of a cover: 0 is first and 1 is last.
fn order_number(order: Order) -> u64
    ensures { result ≡ order_number order }
{
    match order {
        Order::First => 0,
        Order::Last => 1,
    }
}

// The number of a refusal, with its place and its field in the first two cells.
fn refused_in(refusal: Refusal, at: &mut [u64]) -> u64
    requires { 2 ≤ length at.old }
    ensures { RefusedIn refusal at.old result at.new }
{
    let entry = plates::refusal_entry(refusal);
    at[0] = entry.place as u64;
    at[1] = entry.field as u64;
    entry.number
}

// The plate of a sheet and the order of its cover.
#[unsafe(no_mangle)]
pub extern "C" fn yendrufal_plate_of_sheet(
    sheet: &[u8],
    plate: &mut [u64],
    order: &mut [u64],
    at: &mut [u64],
) -> u64
    ensures { CallsPlateOfSheet sheet.now (sheet_cells plate.old order.old at.old) result (sheet_cells plate.new order.new at.new) }
{
    if plate.len() < 132 {
        return MISSHAPEN;
    }
    if order.len() < 1 {
        return MISSHAPEN;
    }
    if at.len() < 2 {
        return MISSHAPEN;
    }
    let report = reports::open(sheet);
    let verdict = verdict_of(report.stage);
    match verdict {
        Ok(()) => {
            flat::put_plate(plate, &report.plate);
            order[0] = order_number(report.order);
            at[0] = 0;
            at[1] = 0;
            0
        }
        Err(refusal) => refused_in(refusal, at),
    }
}
