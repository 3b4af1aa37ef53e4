// The C interface: the calls of the crates below over numbers and slices, as include/yendrufal.h has them. A plate crosses as a flat
// run of words. No call asks anything of its caller: a run that is too short for its fixed use is answered by 101.
#![tactic(auto)]

ghost use Rattle.exports.specs.Promises.{CallsBranch, CallsEncode, CallsListing, CallsPrepare, CallsReadBack, CallsWriteEnd, CallsWritePlate, CallsWriteProfile, CallsWriteRefused, CallsWriteWord};
ghost use Rattle.reports.specs.Remaining.{rooms};

mod cells;
mod flat;
mod matrices;
mod reading;
mod reasons;
mod receiving;
mod sampling;
mod sheeting;
mod summaries;
mod tables;
mod verdicts;
mod weighing;

// The reply where a run is too short for its fixed use, or the kind is neither G nor H.
const MISSHAPEN: u64 = 101;

// The reply where a state has no branch with the bit that was asked for.
const NO_BRANCH: u64 = 100;

// Turns a matrix and a mask into a plate.
#[unsafe(no_mangle)]
pub extern "C" fn yendrufal_prepare(
    n: u64,
    kind: u64,
    rows: &[u64],
    mask: u64,
    plate: &mut [u64],
    at: &mut [u64],
) -> u64
    ensures { CallsPrepare n kind rows.now mask plate.old at.old result plate.new at.new }
{
    if 1 < kind {
        return MISSHAPEN;
    }
    if plate.len() < 132 {
        return MISSHAPEN;
    }
    if at.len() < 1 {
        return MISSHAPEN;
    }
    let made = plates::prepare(n as usize, cells::kind_of(kind), rows, mask);
    let verdict = made.verdict;
    match verdict {
        Ok(()) => {
            flat::put_plate(plate, &made.plate);
            at[0] = 0;
            0
        }
        Err(refusal) => cells::refused_at(refusal, at),
    }
}

// The state that a branch leads to.
#[unsafe(no_mangle)]
pub extern "C" fn yendrufal_branch(
    plate: &[u64],
    depth: u64,
    state: u64,
    bit: u64,
    next: &mut [u64],
) -> u64
    ensures { CallsBranch plate.now depth state bit next.old result next.new }
{
    if plate.len() < 132 {
        return MISSHAPEN;
    }
    if next.len() < 1 {
        return MISSHAPEN;
    }
    match trellises::branch_parts(flat::parts_of(plate), depth as usize, state as usize, bit) {
        Ok(Some(found)) => {
            next[0] = found as u64;
            0
        }
        Ok(None) => NO_BRANCH,
        Err(refusal) => plates::refusal_number(refusal),
    }
}

// The word of an information.
#[unsafe(no_mangle)]
pub extern "C" fn yendrufal_encode(plate: &[u64], information: u64, word: &mut [u64]) -> u64
    ensures { CallsEncode plate.now information word.old result word.new }
{
    if plate.len() < 132 {
        return MISSHAPEN;
    }
    if word.len() < 1 {
        return MISSHAPEN;
    }
    match coding::encode_parts(flat::parts_of(plate), information) {
        Ok(found) => {
            word[0] = found;
            0
        }
        Err(refusal) => plates::refusal_number(refusal),
    }
}

// The information of a word.
#[unsafe(no_mangle)]
pub extern "C" fn yendrufal_read_back(plate: &[u64], word: u64, information: &mut [u64]) -> u64
    ensures { CallsReadBack plate.now word information.old result information.new }
{
    if plate.len() < 132 {
        return MISSHAPEN;
    }
    if information.len() < 1 {
        return MISSHAPEN;
    }
    match coding::read_back_parts(flat::parts_of(plate), word) {
        Ok(found) => {
            information[0] = found;
            0
        }
        Err(refusal) => plates::refusal_number(refusal),
    }
}

// The line `plate`.
#[unsafe(no_mangle)]
pub extern "C" fn yendrufal_write_plate(plate: &[u64], line: &mut [u8], written: &mut [u64]) -> u64
    ensures { CallsWritePlate plate.now line.old written.old result line.new written.new }
{
    if plate.len() < 132 {
        return MISSHAPEN;
    }
    if written.len() < 1 {
        return MISSHAPEN;
    }
    cells::written_length(
        listings::write_plate_parts(flat::parts_of(plate), line),
        written,
    )
}

// The line `profile`.
#[unsafe(no_mangle)]
pub extern "C" fn yendrufal_write_profile(
    plate: &[u64],
    line: &mut [u8],
    written: &mut [u64],
) -> u64
    ensures { CallsWriteProfile plate.now line.old written.old result line.new written.new }
{
    if plate.len() < 132 {
        return MISSHAPEN;
    }
    if written.len() < 1 {
        return MISSHAPEN;
    }
    cells::written_length(
        listings::write_profile_parts(flat::parts_of(plate), line),
        written,
    )
}

// The line `word`.
#[unsafe(no_mangle)]
pub extern "C" fn yendrufal_write_word(
    plate: &[u64],
    word: u64,
    metric: i32,
    additions: u64,
    comparisons: u64,
    line: &mut [u8],
    written: &mut [u64],
) -> u64
    ensures { CallsWriteWord plate.now word metric additions comparisons line.old written.old result line.new written.new }
{
    if plate.len() < 132 {
        return MISSHAPEN;
    }
    if written.len() < 1 {
        return MISSHAPEN;
    }
    cells::written_length(
        listings::write_word_parts(
            flat::parts_of(plate),
            word,
            metric,
            additions,
            comparisons,
            line,
        ),
        written,
    )
}

// The line `refused`, whose field is printed where the place of the number is a line and a field.
#[unsafe(no_mangle)]
pub extern "C" fn yendrufal_write_refused(
    number: u64,
    place: u64,
    field: u64,
    line: &mut [u8],
    written: &mut [u64],
) -> u64
    ensures { CallsWriteRefused number place field line.old written.old result line.new written.new }
{
    if written.len() < 1 {
        return MISSHAPEN;
    }
    cells::written_length(listings::write_refused(number, place, field, line), written)
}

// The line `end`.
#[unsafe(no_mangle)]
pub extern "C" fn yendrufal_write_end(count: u64, line: &mut [u8], written: &mut [u64]) -> u64
    ensures { CallsWriteEnd count line.old written.old result line.new written.new }
{
    if written.len() < 1 {
        return MISSHAPEN;
    }
    cells::written_length(listings::write_end(count, line), written)
}

// The listing of a sheet.
#[unsafe(no_mangle)]
pub extern "C" fn yendrufal_listing(
    sheet: &[u8],
    metrics: &mut [i32],
    decisions: &mut [u64],
    listing: &mut [u8],
    written: &mut [u64],
) -> u64
    ensures { CallsListing sheet.now (rooms metrics.old decisions.old) listing.old written.old result (rooms metrics.new decisions.new) listing.new written.new }
{
    if written.len() < 1 {
        return MISSHAPEN;
    }
    cells::written_length(
        reports::write_listing(sheet, metrics, decisions, listing),
        written,
    )
}
