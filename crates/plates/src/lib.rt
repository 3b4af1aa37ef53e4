// Code plates: what a plate is, how a matrix becomes one, and how a prepared plate is known.
#![tactic(auto)]

ghost use Rattle.std.specs.Prelude.{◌≡◌, ℕ, ◌^◌, ◌<◌, ◌≤◌, get_or, length};
ghost use Rattle.plates.specs.Code.{InCode};
ghost use Rattle.plates.specs.Prepare.{PlateOf, Prepares, Tests, lent, of_parts, zero_plate};
ghost use Rattle.plates.specs.Refusals.{entry_of, field, number, place, told};
ghost use Rattle.plates.specs.Replying.{refused_with};

mod matrix;
mod profile;
mod reduce;
mod rows;
mod tested;

// How a matrix gives its code: as generator, or as parity check.
#[derive(Clone, Copy)]
pub enum Kind {
    G,
    H,
}

// A prepared code and its mask: its length, the number of its heads, the word that is added to every codeword, a row for each head, and
// the profile. Unused places are zero.
#[derive(Clone, Copy)]
pub struct Plate {
    pub n: usize,
    pub k: usize,
    pub mask: u64,
    pub rows: [u64; 64],
    pub profile: [u8; 65],
}

// A plate that is lent in parts, so that nobody copies it: rows and profile are runs of words. Any parts may be lent; those of no prepared
// plate are refused.
#[derive(Clone, Copy)]
pub struct Parts<'a> {
    pub n: usize,
    pub k: usize,
    pub mask: u64,
    pub rows: &'a [u64],
    pub profile: &'a [u64],
}

impl Plate {
    // The zero plate, which stands beside a refusal.
    pub fn zero() -> Plate
        ensures { result ≡ zero_plate }
    {
        Plate {
            n: 0,
            k: 0,
            mask: 0,
            rows: [0; 64],
            profile: [0; 65],
        }
    }

    // The plate lent in parts, its profile's entries as words beside it (`widened`).
    pub fn lend<'a>(&'a self, profile: &'a [u64; 65]) -> Parts<'a>
        ensures parts { lent result ≡ of_parts self.now.n self.now.k self.now.mask self.now.rows profile.now }
        ensures whole { profile.now ≡ self.now.profile → lent result ≡ self.now }
    {
        Parts {
            n: self.n,
            k: self.k,
            mask: self.mask,
            rows: &self.rows,
            profile,
        }
    }
}

// Why a call is refused, with the place where the paper names one, in order of the numbers. The place of a sheet's bad line is the line, or
// line and field.
#[derive(Clone, Copy)]
pub enum Refusal {
    Length,
    TooManyRows,
    RowBeyond(usize),
    TooWide(usize),
    NotPrepared,
    SampleCount,
    SampleRange(usize),
    MetricRoom,
    DecisionRoom,
    SheetLine(usize),
    LineRoom,
    NoSuchBranch,
    InformationBeyond,
    NoCodeword,
    InputTooLong,
    AlistFault(usize),
    FirstField(usize),
    FieldCount(usize, usize),
    FieldValue(usize, usize),
    RowField(usize, usize),
    PositionBeyond,
    WholeSpace,
    MaskBeyond,
    BadSetting,
    NotANumber(usize),
    BranchFault(usize),
    BranchTwice(usize),
    TooManyLines,
}

// The verdict with the plate beside it, which is all zero where the matrix is refused. (Not the `Result` alone: what stands beside a refusal is promised.)
#[derive(Clone, Copy)]
pub struct Prepared {
    pub verdict: Result<(), Refusal>,
    pub plate: Plate,
}

// What the paper's table says of a refusal: its number; its place, which is 0 where the table names none; and the field of a sheet's bad
// line, from 1, which is 0 elsewhere.
#[derive(Clone, Copy)]
pub struct Entry {
    pub number: u64,
    pub place: usize,
    pub field: usize,
}

// An entry of the table.
fn told(number: u64, place: usize, field: usize) -> Entry
    ensures { result ≡ told number place field }
{
    Entry {
        number,
        place,
        field,
    }
}

// The paper's table of refusals.
pub fn refusal_entry(refusal: Refusal) -> Entry
    ensures { result ≡ entry_of refusal }
{
    match refusal {
        Refusal::Length => told(1, 0, 0),
        Refusal::TooManyRows => told(2, 0, 0),
        Refusal::RowBeyond(row) => told(3, row, 0),
        Refusal::TooWide(depth) => told(4, depth, 0),
        Refusal::NotPrepared => told(5, 0, 0),
        Refusal::SampleCount => told(6, 0, 0),
        Refusal::SampleRange(position) => told(7, position, 0),
        Refusal::MetricRoom => told(8, 0, 0),
        Refusal::DecisionRoom => told(9, 0, 0),
        Refusal::SheetLine(line) => told(10, line, 0),
        Refusal::LineRoom => told(11, 0, 0),
        Refusal::NoSuchBranch => told(12, 0, 0),
        Refusal::InformationBeyond => told(13, 0, 0),
        Refusal::NoCodeword => told(14, 0, 0),
        Refusal::InputTooLong => told(15, 0, 0),
        Refusal::AlistFault(line) => told(16, line, 0),
        Refusal::FirstField(line) => told(17, line, 1),
        Refusal::FieldCount(line, field) => told(18, line, field),
        Refusal::FieldValue(line, field) => told(19, line, field),
        Refusal::RowField(line, field) => told(20, line, field),
        Refusal::PositionBeyond => told(21, 0, 0),
        Refusal::WholeSpace => told(22, 0, 0),
        Refusal::MaskBeyond => told(23, 0, 0),
        Refusal::BadSetting => told(24, 0, 0),
        Refusal::NotANumber(position) => told(25, position, 0),
        Refusal::BranchFault(line) => told(26, line, 0),
        Refusal::BranchTwice(line) => told(27, line, 0),
        Refusal::TooManyLines => told(28, 0, 0),
    }
}

// The paper's number of a refusal.
pub fn refusal_number(refusal: Refusal) -> u64
    ensures { result ≡ number refusal }
{
    refusal_entry(refusal).number
}

// The place of a refusal: a row, a depth, a position or a line where the paper names one, and 0 elsewhere.
pub fn refusal_place(refusal: Refusal) -> usize
    ensures { result ≡ place refusal }
{
    refusal_entry(refusal).place
}

// The field of a sheet's bad line, from 1, and 0 where there is none.
pub fn refusal_field(refusal: Refusal) -> usize
    ensures { result ≡ field refusal }
{
    refusal_entry(refusal).field
}

// A refusal, with the zero plate beside it.
pub fn refused(refusal: Refusal) -> Prepared
    ensures { result ≡ refused_with refusal }
{
    Prepared {
        verdict: Err(refusal),
        plate: Plate::zero(),
    }
}

// The plate of a matrix that refusals 1 to 3 do not meet, worked out in its own rows and profile. It is made where the caller keeps it, since
// the stack holds once more each plate that a call gives back.
fn plate_of_matrix(plate: &mut Plate, n: usize, kind: Kind, rows: &[u64], mask: u64)
    requires n_bound { n ≤ 64 }
    requires rows_len_bound { length rows.now ≤ 64 }
    requires by_index { (j : ℕ) → j < length rows.now → get_or rows.now j 0 < 2 ^ n }
    ensures { PlateOf (InCode kind n rows.now) n mask plate.new }
{
    plate.n = n;
    plate.mask = mask;
    plate.rows = [0; 64];
    plate.profile = [0; 65];
    let used = matrix::fill(&mut plate.rows, n, kind, rows);
    let k = reduce::reduce(&mut plate.rows, n, used);
    plate.k = k;
    let heads = profile::heads(&plate.rows, k);
    let ends = profile::ends(&plate.rows, k);
    profile::tally(&mut plate.profile, n, heads, ends);
}

// The plate of a matrix's code with a mask, or the first refusal that its length, its rows, the mask or its profile meet.
pub fn prepare(n: usize, kind: Kind, rows: &[u64], mask: u64) -> Prepared
    ensures { Prepares n kind rows.now mask result }
{
    if n == 0 {
        return refused(Refusal::Length);
    }
    if 64 < n {
        return refused(Refusal::Length);
    }
    if 64 < rows.len() {
        return refused(Refusal::TooManyRows);
    }
    if let Some(beyond) = matrix::first_beyond(rows, n) {
        return refused(Refusal::RowBeyond(beyond));
    }
    let reach = matrix::reaches(mask, n);
    let mut plate = Plate::zero();
    plate_of_matrix(&mut plate, n, kind, rows, mask);
    let wide = profile::first_wide(&plate.profile, n);
    if reach {
        return refused(Refusal::MaskBeyond);
    }
    if let Some(depth) = wide {
        return refused(Refusal::TooWide(depth));
    }
    Prepared {
        verdict: Ok(()),
        plate,
    }
}

// A profile's entries as words.
pub fn widened(profile: [u8; 65]) -> [u64; 65]
    ensures { result ≡ profile }
{
    let mut wide = [0u64; 65];
    for (t, entry) in profile.iter().enumerate() {
        wide[t] = *entry as u64;
    }
    wide
}

// Whether parts are those of a plate that preparing its own first k rows as G, with its own mask, gives.
pub fn parts_prepared<'a>(plate: Parts<'a>) -> bool
    ensures { Tests (lent plate.entry) result }
{
    if plate.rows.len() != 64 {
        return false;
    }
    if plate.profile.len() != 65 {
        return false;
    }
    tested::sound(plate)
}

// Whether a plate is what preparing its own first k rows as G, with its own mask, gives.
pub fn is_prepared(plate: Plate) -> bool
    ensures { Tests plate result }
{
    let profile = widened(plate.profile);
    tested::sound(plate.lend(&profile))
}
