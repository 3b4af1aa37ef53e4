// The walk to the earliest word in which the listing and the plate differ, from the start to the end.
ghost use Rattle.std.specs.Prelude.{◌*◌, ◌+◌, ◌<◌, ◌^◌, suc, ◌≡◌};
ghost use Rattle.judging.specs.Ours.{ours};
ghost use Rattle.judging.specs.Room.{theirs};
ghost use Rattle.judging.specs.Steps.{Found, SteppedTo, Stepping, WalkAsks};

use crate::Judged;
use crate::ours::follow;
use crate::rooms::{lead_number, line_from, told_number};
use trellises::places::weight_of;

// Where the walk goes on: a number of theirs and one of ours, and the bit on the way there.
#[derive(Clone, Copy)]
pub struct Place {
    pub theirs: usize,
    pub ours: usize,
    pub bit: u64,
}

// One section: bit 0 where the ways with 0 differ, and else bit 1. The bit of the code's branch is the mask's added to it.
fn step(
    rows: &[u64],
    mask: u64,
    n: usize,
    room: &[u64],
    lines: usize,
    t: usize,
    u: usize,
    y: usize,
) -> Place
    requires { Stepping rows.now mask n room.now lines t u y }
    ensures { SteppedTo (theirs n lines room.now) (ours rows.now mask) n t u y result }
{
    let section = trellises::sections::section_of(rows, t);
    let flip = words::bit_at(mask, t);
    let first = line_from(room, lines, t, u, 0);
    let told = told_number(room, first);
    let zero = follow(section, y, flip);
    if told != zero {
        let lead = lead_number(room, first);
        return Place {
            theirs: lead,
            ours: zero,
            bit: 0,
        };
    }
    let second = line_from(room, lines, t, u, 1);
    let lead = lead_number(room, second);
    let one = follow(section, y, 1 ^ flip);
    Place {
        theirs: lead,
        ours: one,
        bit: 1,
    }
}

// A word with a bit at a position beyond all its own.
fn with_bit(word: u64, t: usize, bit: u64) -> u64
    requires { (t < 64) × (word < 2 ^ t) × (bit < 2) }
    ensures { (result ≡ word + bit * 2 ^ t) × (result < 2 ^ suc t) }
{
    if bit == 0 {
        return word;
    }
    word + weight_of(t) as u64
}

// The earliest word in which the two starts differ, spelled wrongly where the listing spells it.
pub fn walk(rows: &[u64], mask: u64, n: usize, room: &[u64], lines: usize) -> Judged
    requires { WalkAsks rows.now mask n room.now lines }
    ensures { Found (theirs n lines room.now) (ours rows.now mask) n result }
{
    let mut word: u64 = 0;
    let mut u: usize = 1;
    let mut y: usize = 1;
    for t in 0..n {
        let next = step(rows, mask, n, room, lines, t, u, y);
        word = with_bit(word, t, next.bit);
        u = next.theirs;
        y = next.ours;
    }
    if u == 1 {
        Judged::SpelledWrongly(word)
    } else {
        Judged::NotSpelled(word)
    }
}
