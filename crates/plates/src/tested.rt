// The test that a plate is prepared: its rows, taken by their last ones, its profile depth by depth, and its unused places.
ghost use Rattle.std.specs.Prelude.{◌≡◌, ◌≤◌, ◌<◌, length};
ghost use Rattle.words.specs.Ends.{firsts, lasts};
ghost use Rattle.words.specs.Span.{Spans};
ghost use Rattle.plates.specs.Prepare.{lent};
ghost use Rattle.plates.specs.Sound.{Sound};
ghost use Rattle.plates.specs.Tested.{Decides, ByLast, MayFollow, Standing, Placed, RowEnding, HeadsOf, HeadWord, Cleared, ending_at, Profiled, UsedSound, ZeroFrom};

use crate::Parts;
use crate::matrix::reaches;
use words::{bit_at, first_one, last_one};

// Whether a row may come after rows that begin before `from` and stand in the table.
fn may_follow(row: u64, from: usize, n: usize, by_last: &[u8; 64]) -> bool
    requires { n ≤ 64 }
    ensures { Decides (MayFollow n from by_last.now row) result }
{
    let last = last_one(row);
    if n <= last {
        return false;
    }
    if first_one(row) < from {
        return false;
    }
    if by_last[last] < 64 {
        return false;
    }
    true
}

// Puts the rows into the table by their last ones, up to the first that may not follow.
fn place_rows(rows: &[u64], n: usize, by_last: &mut [u8; 64]) -> bool
    requires n_bound { n ≤ 64 }
    requires rows_len_bound { length rows.now ≤ 64 }
    requires by_last { ByLast rows.now 0 by_last.old }
    ensures { Placed n rows.now by_last.new result }
{
    let mut from: usize = 0;
    for (i, row) in rows.iter().enumerate() {
        if !may_follow(*row, from, n, by_last) {
            return false;
        }
        by_last[last_one(*row)] = i as u8;
        from = first_one(*row) + 1;
    }
    true
}

// The row that ends at a position; 0 where none does (a number and no Option: it is taken in `&` and `|`, where 0 changes nothing).
fn row_ending(rows: &[u64], by_last: &[u8; 64], t: usize) -> u64
    requires t_bound { t < 64 }
    requires rows_len_bound { length rows.now ≤ 64 }
    requires by_last { ByLast rows.now (length rows.now) by_last.now }
    ensures { RowEnding rows.now t result }
{
    let at = by_last[t] as usize;
    if at < rows.len() {
        return rows[at];
    }
    0
}

// The head of a row, as a word.
fn head_word(row: u64) -> u64
    ensures { HeadWord row result }
{
    if row == 0 {
        return 0;
    }
    1 << first_one(row)
}

// Whether each row has 0 at the heads of the rows that end sooner. By rising last ones, one test does for all of these.
fn heads_clear(rows: &[u64], n: usize, by_last: &[u8; 64]) -> bool
    requires n_bound { n ≤ 64 }
    requires rows_len_bound { length rows.now ≤ 64 }
    requires standing { Standing n rows.now }
    requires by_last { ByLast rows.now (length rows.now) by_last.now }
    ensures { Decides (Cleared rows.now) result }
{
    let mut heads: u64 = 0;
    for t in 0..n {
        let row = row_ending(rows, by_last, t);
        if row & heads != 0 {
            return false;
        }
        heads |= head_word(row);
    }
    true
}

// The heads of all rows, as a word.
fn all_heads(rows: &[u64]) -> u64
    requires { Spans rows.now (firsts rows.now) (lasts rows.now) }
    ensures { HeadsOf rows.now (λ j. j < length rows.now) result }
{
    let mut heads: u64 = 0;
    for row in rows {
        heads |= head_word(*row);
    }
    heads
}

// 1 where a row ends at a position, and 0 where none does: it is taken off a count.
fn ending_at(by_last: &[u8; 64], t: usize) -> usize
    requires { t < 64 }
    ensures { result ≡ ending_at by_last.now t }
{
    (by_last[t] < 64) as usize
}

// Whether an entry of the profile is the number of live rows, and at most 12.
fn entry_is(entry: u64, live: usize) -> bool
    ensures { Decides ((entry ≡ live) × (live ≤ 12)) result }
{
    live <= 12 && entry as usize == live
}

// Whether the profile is that of the rows. From depth to depth it gains 1 where a row begins, and loses 1 where one ends.
fn profile_is(rows: &[u64], n: usize, by_last: &[u8; 64], profile: &[u64]) -> bool
    requires n_bound { (n ≤ 64) × (length profile.now ≡ 65) }
    requires rows_len_bound { length rows.now ≤ 64 }
    requires standing { Standing n rows.now }
    requires by_last { ByLast rows.now (length rows.now) by_last.now }
    ensures { Decides (Profiled n rows.now profile.now) result }
{
    let heads = all_heads(rows);
    let mut live: usize = 0;
    for t in 0..n {
        if !entry_is(profile[t], live) {
            return false;
        }
        live = live + (bit_at(heads, t) as usize) - ending_at(by_last, t);
    }
    profile[n] == 0
}

// Whether the rows in use, and their profile, are those of a plate.
fn used_sound(rows: &[u64], n: usize, profile: &[u64]) -> bool
    requires n_bound { (n ≤ 64) × (length profile.now ≡ 65) }
    requires rows_len_bound { length rows.now ≤ 64 }
    ensures { Decides (UsedSound n rows.now profile.now) result }
{
    let mut by_last = [64u8; 64];
    if !place_rows(rows, n, &mut by_last) {
        return false;
    }
    if !heads_clear(rows, n, &by_last) {
        return false;
    }
    profile_is(rows, n, &by_last, profile)
}

// Whether the words from a place on are zero. The loop stops nowhere, so that it takes several words at a time.
fn zero_from(words: &[u64], from: usize) -> bool
    ensures { Decides (ZeroFrom from words.now) result }
{
    let mut ones: u64 = 0;
    for i in from..words.len() {
        ones |= words[i];
    }
    ones == 0
}

// Whether all that can be tested of a plate holds.
pub fn sound<'a>(plate: Parts<'a>) -> bool
    requires rows_len { length plate.rows.now ≡ 64 }
    requires profile_len { length plate.profile.now ≡ 65 }
    ensures { Decides (Sound (lent plate.entry)) result }
{
    if plate.n == 0 {
        return false;
    }
    if 64 < plate.n {
        return false;
    }
    if 64 < plate.k {
        return false;
    }
    if reaches(plate.mask, plate.n) {
        return false;
    }
    if !used_sound(&plate.rows[..plate.k], plate.n, plate.profile) {
        return false;
    }
    if !zero_from(plate.rows, plate.k) {
        return false;
    }
    zero_from(plate.profile, plate.n + 1)
}
