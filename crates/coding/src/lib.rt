// Encoding information to a word of a plate, and reading a word of a plate back.
#![tactic(auto)]

ghost use Rattle.std.specs.Int.Bits.{bit_xor};
ghost use Rattle.std.specs.Prelude.{length, take, ◌≡◌, ◌^◌, ◌≤◌, ◌<◌};
ghost use Rattle.coding.specs.Coding.{Encodes, ReadsBack};
ghost use Rattle.coding.specs.TakingOff.{Headed, Read, ReadOn, Reaches};
ghost use Rattle.plates.specs.Prepare.{lent};
ghost use Rattle.words.specs.Sum.{sum_of, taken};

use plates::{Parts, Refusal};

// What is left of a word once the rows before a place are taken off it, and the information that they make.
#[derive(Clone, Copy)]
pub struct Reading {
    pub information: u64,
    pub rest: u64,
}

// The row where the digit is 1, added to a sum.
fn with_row(sum: u64, row: u64, digit: u64) -> u64
    requires { digit < 2 }
    ensures { result ≡ bit_xor (taken digit row) sum }
{
    if digit == 0 {
        return sum;
    }
    row ^ sum
}

// The sum of the first k rows that the information takes, from the last row to the first.
fn sum_rows(rows: &[u64], k: usize, information: u64) -> u64
    requires { (length rows.now ≡ 64) × (k ≤ 64) }
    ensures { result ≡ sum_of (take k rows.now) information }
{
    let mut sum = 0;
    for j in (0..k).rev() {
        sum = with_row(sum, rows[j], words::bit_at(information, j));
    }
    sum
}

// The rest without row j, and the information with it, where the rest has a one at the row's head.
fn take_off(before: Reading, row: u64, j: usize) -> Reading
    requires { (j < 64) × (before.information < 2 ^ j) }
    ensures { ReadOn before row j result }
{
    if words::bit_at(before.rest, words::first_one(row)) == 0 {
        return before;
    }
    Reading {
        information: before.information | (1 << j),
        rest: row ^ before.rest,
    }
}

// The first k rows taken off a word by their heads, from the first row to the last.
fn take_rows(rows: &[u64], k: usize, word: u64) -> Reading
    requires { Headed rows.now k }
    ensures { Read rows.now k word k result }
{
    let mut reading = Reading {
        information: 0,
        rest: word,
    };
    for j in 0..k {
        reading = take_off(reading, rows[j], j);
    }
    reading
}

// Whether a word has a one at k or beyond.
fn reaches(word: u64, k: usize) -> bool
    ensures { Reaches word k result }
{
    if k < 64 {
        return (word >> k) != 0;
    }
    false
}

// Encodes information: bit j takes row j, and the mask is added.
pub fn encode_parts<'a>(plate: Parts<'a>, information: u64) -> Result<u64, Refusal>
    ensures { Encodes (lent plate.entry) information result }
{
    if !plates::parts_prepared(plate) {
        return Err(Refusal::NotPrepared);
    }
    if reaches(information, plate.k) {
        return Err(Refusal::InformationBeyond);
    }
    Ok(sum_rows(plate.rows, plate.k, information) ^ plate.mask)
}

// Reads a word of the plate back: the information that encodes to it.
pub fn read_back_parts<'a>(plate: Parts<'a>, word: u64) -> Result<u64, Refusal>
    ensures { ReadsBack (lent plate.entry) word result }
{
    if !plates::parts_prepared(plate) {
        return Err(Refusal::NotPrepared);
    }
    let reading = take_rows(plate.rows, plate.k, word ^ plate.mask);
    if reading.rest != 0 {
        return Err(Refusal::NoCodeword);
    }
    Ok(reading.information)
}
