// A plate put into its run of 132 words, and lent out of it: n, k, 64 rows, 65 profile entries and the mask.
ghost use Rattle.std.specs.Prelude.{◌≡◌, ◌++◌, ◌∷◌, ◌≤◌, drop, length, set};
ghost use Rattle.std.proofs.Math.Seq.{paste};
ghost use Rattle.plates.specs.Prepare.{lent};
ghost use Rattle.exports.specs.Flat.{flat, plate_of};

use plates::{Parts, Plate};

// The place of the mask in the run of a plate: n, k, 64 rows and 65 profile entries stand before it.
const MASK: usize = 131;

// The plate that a run holds, lent in parts. Inlined, so that a call holds no parts once more as a reply.
#[inline(always)]
pub fn parts_of<'a>(plate: &'a [u64]) -> Parts<'a>
    requires { 132 ≤ length plate.now }
    ensures { lent result ≡ plate_of plate.now }
{
    Parts {
        n: plate[0] as usize,
        k: plate[1] as usize,
        mask: plate[MASK],
        rows: &plate[2..66],
        profile: &plate[66..131],
    }
}

// The rows into the run.
fn put_rows(words: &mut [u64], rows: &[u64; 64])
    requires { (length rows.now ≡ 64) × (132 ≤ length words.old) }
    ensures { words.new ≡ paste words.old 2 rows.now 64 }
{
    for j in 0..64 {
        words[2 + j] = rows[j];
    }
}

// A profile entry as a word.
fn wide(entry: u8) -> u64
    ensures { result ≡ entry }
{
    entry as u64
}

// The profile into the run.
fn put_profile(words: &mut [u64], profile: &[u8; 65])
    requires { (length profile.now ≡ 65) × (132 ≤ length words.old) }
    ensures { words.new ≡ paste words.old 66 profile.now 65 }
{
    for t in 0..65 {
        words[66 + t] = wide(profile[t]);
    }
}

// The mask to its place, n and k to the start of the run.
fn put_numbers(words: &mut [u64], n: usize, k: usize, mask: u64)
    requires { 132 ≤ length words.old }
    ensures { words.new ≡ n ∷ k ∷ drop 2 (set words.old 131 mask) }
{
    words[131] = mask;
    words[0] = n as u64;
    words[1] = k as u64;
}

// A plate to the start of the run. Inlined, so that the stack of the two calls that put a plate holds it once: not as a reply and as what is
// lent here.
#[inline(always)]
pub fn put_plate(words: &mut [u64], plate: &Plate)
    requires { (length plate.now.rows ≡ 64) × (length plate.now.profile ≡ 65) × (132 ≤ length words.old) }
    ensures { words.new ≡ flat plate.now ++ drop 132 words.old }
{
    put_numbers(words, plate.n, plate.k, plate.mask);
    put_rows(words, &plate.rows);
    put_profile(words, &plate.profile);
}
