// The live rows of a plate, kept from section to section as the bits of one number: a section costs as many steps as it has rows.
ghost use Rattle.std.specs.Prelude.{length, take, ◌≡◌, suc, ◌+◌, ◌<◌, ◌≤◌};
ghost use Rattle.decoding.specs.LiveRows.{AllActive, BeginsHere, EndsAre, LiveAt, LiveBefore, PassedTo, PlateRows, begun_before, ending_by, leads_by, mark_of};
ghost use Rattle.trellises.specs.RowsAmong.{rows_among};
ghost use Rattle.trellises.specs.SectionOf.{held, section_of};

use crate::states::target;
use trellises::Section;

// The rows that are live at a depth, and how many rows have begun before it.
#[derive(Clone, Copy)]
pub struct Live {
    pub marks: u64,
    pub next: usize,
}

// A section passed, and the live rows on its other side.
#[derive(Clone, Copy)]
pub struct Passed {
    pub section: Section,
    pub live: Live,
}

// The row that begins in a section, and its bit; both 0 where none begins.
#[derive(Clone, Copy)]
pub struct Beginning {
    pub row: u64,
    pub mark: u64,
}

// For each position, one more than the row that ends there, and 0 where none does.
pub fn ending_rows(rows: &[u64], k: usize) -> [u8; 64]
    requires { PlateRows rows.now k }
    ensures { EndsAre (take k rows.now) result }
{
    let mut ends = [0u8; 64];
    for j in 0..k {
        let last = words::last_one(rows[j]);
        ends[last] = (j + 1) as u8;
    }
    ends
}

// The bit of a row, by one more than the row; 0 where there is none. (A number and no Option, here and below: 64 of them stand on the controller's stack.)
pub fn mark_of(following: u8) -> u64
    requires { following ≤ 64 }
    ensures { result ≡ mark_of following }
{
    if following == 0 {
        return 0;
    }
    1 << (following - 1)
}

// Row `next` and its bit, where that row begins at t; 0 and 0 where it does not, and where there is no such row.
pub fn row_beginning(rows: &[u64], k: usize, next: usize, t: usize) -> Beginning
    requires plate_rows { PlateRows rows.now k }
    requires next_value { next ≡ begun_before (take k rows.now) t }
    ensures { BeginsHere (take k rows.now) t result }
{
    if k <= next {
        return Beginning { row: 0, mark: 0 };
    }
    let row = rows[next];
    if words::first_one(row) != t {
        return Beginning { row: 0, mark: 0 };
    }
    Beginning {
        row,
        mark: 1 << next,
    }
}

// How many of the active rows stand below the row that ends, by one more than that row; all of them where none ends.
fn rows_below(active: u64, following: u8) -> usize
    requires { following ≤ 64 }
    ensures { result ≡ ending_by active following }
{
    if following == 0 {
        return u64::count_ones(active) as usize;
    }
    let below = active & ((1 << (following - 1)) - 1);
    u64::count_ones(below) as usize
}

// Where a branch leads that takes some of the active rows: without the row that ends, by one more than it, where one does.
pub fn leads(active: u64, following: u8, branch: usize) -> usize
    requires { following ≤ 64 }
    ensures { result ≡ leads_by active following branch }
{
    if following == 0 {
        return branch;
    }
    target(rows_below(active, following), branch)
}

// The active rows but for the one that begins at t: of the rows begun by the section's far side it is the last.
fn rows_before(rows: &[u64], active: u64, next: usize, t: usize) -> Live
    requires { (length rows.now ≡ 64) × (next ≤ 64) }
    ensures { LiveBefore rows.now active next t result }
{
    if next == 0 {
        return Live {
            marks: active,
            next,
        };
    }
    let last = next - 1;
    if words::first_one(rows[last]) == t {
        return Live {
            marks: active ^ (1 << last),
            next: last,
        };
    }
    Live {
        marks: active,
        next,
    }
}

// Position t of the active rows: the first of them has weight 1, the next 2, and so on. (A `while`: it takes rows off a number and counts no index.)
fn column_of(rows: &[u64], active: u64, t: usize) -> u64
    requires { (length rows.now ≡ 64) × (t < 64) × AllActive rows.now active t }
    ensures { result ≡ (held (section_of (rows_among rows.now active) t)).column }
{
    let mut column: u64 = 0;
    let mut left = active;
    while 0 < left {
        let j = words::last_one(left);
        let digit = (rows[j] >> t) & 1;
        column = (column << 1) | digit;
        left = left ^ (1 << j);
    }
    column
}

// Section t passed from its far side: the row that ends there joins the live rows, and the row that begins there leaves them.
pub fn pass_back(rows: &[u64], k: usize, ends: &[u8; 64], live: Live, t: usize) -> Passed
    requires plate_rows { PlateRows rows.now k }
    requires ends_are { EndsAre (take k rows.now) ends.now }
    requires t_bound { (t < 64) × LiveAt (take k rows.now) (suc t) live }
    ensures { PassedTo (take k rows.now) t result }
{
    let following = ends[t];
    let active = live.marks + mark_of(following);
    let before = rows_before(rows, active, live.next, t);
    let column = column_of(rows, active, t);
    let marks = before.marks;
    Passed {
        section: Section {
            live: u64::count_ones(marks) as usize,
            begins: marks < active,
            ends: 0 < following,
            ending: rows_below(active, following),
            column,
        },
        live: before,
    }
}
