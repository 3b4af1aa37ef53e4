// The codeword read off the decisions, from the start to the far end, and its word.
ghost use Rattle.std.specs.Int.Bits.{bit_xor};
ghost use Rattle.std.specs.Prelude.{eqb, get_or, length, take, cond, ◌≡◌, suc, ◌+◌, ◌-◌, ◌*◌, ◌/◌, ◌%◌, ◌^◌, ◌≤◌, ◌<◌};
ghost use Rattle.decoding.specs.Backward.{word_from};
ghost use Rattle.decoding.specs.LiveRows.{ending_count};
ghost use Rattle.decoding.specs.Sweeping.{BeforeWalk, WalkFits, Walked};
ghost use Rattle.decoding.specs.Turning.{turned_by};
ghost use Rattle.trellises.specs.SectionOf.{section_of};
ghost use Rattle.words.specs.Word.{bit};

use crate::live::{leads, mark_of, row_beginning};
use crate::states::power;
use crate::sweep::Sizes;

// Where the walk stands: the word's positions so far, the sum of the rows taken, the state there, the live rows and how many they are,
// and how many rows have begun.
#[derive(Clone, Copy)]
pub struct Walk {
    pub word: u64,
    pub sum: u64,
    pub state: usize,
    pub live: u64,
    pub count: usize,
    pub next: usize,
}

// The decision at a state, in the decision words that begin at a place.
fn decision(decisions: &[u64], begin: usize, state: usize) -> u64
    requires { (begin ≤ 4096) × (state < 4096) × (begin + state / 64 < length decisions.now) }
    ensures { result ≡ bit (get_or decisions.now (begin + state / 64) 0) (state % 64) }
{
    let at = begin + (state >> 6);
    words::bit_at(decisions[at], state & 63)
}

// The row that begins, where the rows taken so far do not have the decided bit at t; 0 where they have it.
fn row_taken(row: u64, sum: u64, t: usize, chosen: u64) -> u64
    ensures { result ≡ cond (eqb (bit sum t) chosen) 0 row }
{
    if words::bit_at(sum, t) == chosen {
        0
    } else {
        row
    }
}

// The branch that leaves a state with so many live rows and takes a row that begins; 0 is no row.
fn branch_taking(state: usize, count: usize, row: u64) -> usize
    requires { (state < 4096) × (count ≤ 12) }
    ensures { result ≡ cond (eqb row 0) state (state + 2 ^ count) }
{
    let also = state + power(count);
    if row == 0 { state } else { also }
}

// So many rows, and the row that begins; 0 is no row.
fn and_beginning(rows: usize, row: u64) -> usize
    requires { rows ≤ 64 }
    ensures { result ≡ cond (eqb row 0) rows (suc rows) }
{
    if row == 0 { rows } else { rows + 1 }
}

// So many rows without the row that ends, by one more than that row; 0 where none does.
fn but_ending(rows: usize, following: u8) -> usize
    requires { ending_count following ≤ rows }
    ensures { result ≡ rows - ending_count following }
{
    if following == 0 { rows } else { rows - 1 }
}

// Section t: its decided bit, and where the branch with that bit leads.
fn walk_section(
    rows: &[u64],
    sizes: Sizes,
    ends: &[u8; 64],
    samples: &[i16],
    decisions: &[u64],
    t: usize,
    at: Walk,
) -> Walk
    requires { BeforeWalk rows.now sizes ends.now (turned_by sizes.rest samples.now) decisions.now t at }
    ensures { Walked (take sizes.k rows.now) (turned_by sizes.rest samples.now) (suc t) result }
{
    let beginning = row_beginning(rows, sizes.k, at.next, t);
    let row = beginning.row;
    let chosen = decision(decisions, t * sizes.words, at.state);
    let taken = row_taken(row, at.sum, t, chosen);
    let branch = branch_taking(at.state, at.count, taken);
    let active = at.live + beginning.mark;
    let following = ends[t];
    Walk {
        word: at.word | (chosen << t),
        sum: at.sum ^ taken,
        state: leads(active, following, branch),
        live: active - mark_of(following),
        count: but_ending(and_beginning(at.count, row), following),
        next: and_beginning(at.next, row),
    }
}

// All sections: the word decided, which is the codeword plus rest.
pub fn read_off(
    rows: &[u64],
    sizes: Sizes,
    ends: &[u8; 64],
    samples: &[i16],
    decisions: &[u64],
) -> u64
    requires { WalkFits rows.now sizes ends.now (turned_by sizes.rest samples.now) decisions.now }
    ensures { result ≡ bit_xor (word_from (section_of (take sizes.k rows.now)) (turned_by sizes.rest samples.now) 0 0) sizes.rest }
{
    let mut at = Walk {
        word: 0,
        sum: 0,
        state: 0,
        live: 0,
        count: 0,
        next: 0,
    };
    for t in 0..sizes.n {
        at = walk_section(rows, sizes, ends, samples, decisions, t, at);
    }
    at.word ^ sizes.rest
}
