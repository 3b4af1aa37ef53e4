// For each line the number of ours that has the same ways to the end as the state that the line leads to, from the last line to the first.
ghost use Rattle.std.specs.Prelude.{◌<◌, ◌-◌, suc};
ghost use Rattle.judging.specs.Ours.{ours};
ghost use Rattle.judging.specs.Room.{AllTold, theirs};
ghost use Rattle.judging.specs.Steps.{Asking, Ready};
ghost use Rattle.judging.specs.Ways.{Tells};

use crate::ours::class_of;
use crate::rooms::{line_from, told_number};

// The number of ours that has the same ways as a state of theirs, where the lines of its depth are told.
pub fn tell(
    rows: &[u64],
    mask: u64,
    n: usize,
    room: &[u64],
    lines: usize,
    t: usize,
    state: usize,
) -> usize
    requires asking { Asking rows.now mask n room.now lines t }
    requires state_bound { state < 1024 }
    ensures { Tells (theirs n lines room.now) (ours rows.now mask) (n - t) t (suc state) result }
{
    if t == n {
        if state == 0 {
            return 1;
        }
        return 0;
    }
    let section = trellises::sections::section_of(rows, t);
    // the branch of theirs with this bit answers to the code's with 0
    let flip = words::bit_at(mask, t) as usize;
    let first = line_from(room, lines, t, state + 1, flip);
    let zero = told_number(room, first);
    let second = line_from(room, lines, t, state + 1, 1 ^ flip);
    let one = told_number(room, second);
    class_of(section, zero, one)
}

// All lines told.
pub fn tell_all(rows: &[u64], mask: u64, n: usize, room: &mut [u64], lines: usize)
    requires { Ready rows.now mask n room.old lines }
    ensures { AllTold n lines rows.now mask room.old room.new }
{
    for i in (0..lines).rev() {
        let at = 4 * i;
        let depth = (room[at] / 2048) as usize;
        let state = room[at + 1] as usize;
        let number = tell(rows, mask, n, &*room, lines, depth + 1, state) as u64;
        room[at + 2] = number;
    }
}
