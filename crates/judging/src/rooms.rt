// The working room, four numbers a line: the start of its branch (depth, state and bit as one number), the state that it leads to, the
// number of ours that has the same ways to the end as that state, and a mark.
ghost use Rattle.std.specs.Prelude.{length, Some, replicate, ◌≡◌, ℕ, ◌*◌, ◌+◌, ◌-◌, ◌<◌, ◌≤◌};
ghost use Rattle.sheets.specs.Listed.{entries};
ghost use Rattle.judging.specs.Room.{AllInRange, InRange, InRoom, LineFrom, Put, Stored, Within, key_of, key_test, lead_at, lead_number, told_number};
ghost use Rattle.judging.specs.Working.{FirstFound};

use crate::lines::branch_in;
use sheets::listed::{Branch, read_entry};

// A depth, a state and a bit as one number.
fn key_of(depth: usize, state: usize, bit: usize) -> u64
    requires { Within depth state bit }
    ensures { result ≡ key_of depth state bit }
{
    (depth * 2048 + state * 2 + bit) as u64
}

// A branch into the places of a line.
fn put(room: &mut [u64], line: usize, branch: Branch)
    requires line_in_bounds { 4 * line + 4 ≤ length room.old }
    requires in_range { InRange branch }
    ensures { Put room.old line branch room.new }
{
    let key = key_of(branch.depth, branch.from, branch.bit);
    let to = branch.to as u64;
    let at = 4 * line;
    room[at] = key;
    room[at + 1] = to;
}

// The branches of all lines into the room. (A `while`: each turn begins where the line before it was found to end.)
pub fn fill(text: &[u8], n: usize, room: &mut [u64])
    requires room_len { length room.old ≡ 4 * length (entries n text.now) }
    requires all_in_range { AllInRange (entries n text.now) }
    ensures stored { Stored (entries n text.now) (length (entries n text.now)) room.new }
    ensures room_len_unchanged { length room.new ≡ length room.old }
{
    let mut i: usize = 0;
    let mut at: usize = 0;
    while at < text.len() {
        let entry = read_entry(text, at, n);
        let line = entry.line;
        let branch = branch_in(line);
        put(&mut *room, i, branch);
        at = entry.next;
        i += 1;
    }
}

// The first line with a start.
fn find(room: &[u64], lines: usize, key: u64) -> Option<usize>
    requires { length room.now ≡ 4 * lines }
    ensures { FirstFound lines (key_test room.now key) result }
{
    for j in 0..lines {
        if room[4 * j] == key {
            return Some(j);
        }
    }
    None
}

// The line of the branch with a bit from a number of theirs.
pub fn line_from(room: &[u64], lines: usize, t: usize, u: usize, bit: usize) -> Option<usize>
    requires room_len { length room.now ≡ 4 * lines }
    requires within { Within t (u - 1) bit }
    ensures { LineFrom room.now lines t u bit result }
{
    if u == 0 {
        return None;
    }
    let key = key_of(t, u - 1, bit);
    find(room, lines, key)
}

// Where the branch of a line leads, as a number of theirs.
pub fn lead_number(room: &[u64], line: Option<usize>) -> usize
    requires in_room { InRoom room.now line }
    requires small { (j : ℕ) → line ≡ Some j → lead_at room.now j < 1024 }
    ensures { result ≡ lead_number room.now line }
{
    match line {
        Some(j) => room[4 * j + 1] as usize + 1,
        None => 0,
    }
}

// What is told of the state that the branch of a line leads to.
pub fn told_number(room: &[u64], line: Option<usize>) -> usize
    requires { InRoom room.now line }
    ensures { result ≡ told_number room.now line }
{
    match line {
        Some(j) => room[4 * j + 2] as usize,
        None => 0,
    }
}
