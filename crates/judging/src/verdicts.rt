// The judgement of clean lines, in a room of four numbers a line.
ghost use Rattle.std.specs.Prelude.{length, replicate, ◌≡◌};
ghost use Rattle.sheets.specs.Listed.{entries};
ghost use Rattle.judging.specs.Listing.{branches_of, listed_graph};
ghost use Rattle.judging.specs.Ours.{ours};
ghost use Rattle.judging.specs.Room.{theirs};
ghost use Rattle.judging.specs.Steps.{Found, JudgedAsks, JudgedTo, VerdictAsks};

use crate::marks::mark_all;
use crate::rooms::fill;
use crate::surplus::with_surplus;
use crate::telling::{tell, tell_all};
use crate::walking::walk;
use crate::{Judged, Judgement};

// The judgement where all lines are told: right where the starts have the same ways, and else the earliest word that tells.
fn verdict(rows: &[u64], mask: u64, n: usize, room: &[u64], lines: usize) -> Judged
    requires { VerdictAsks rows.now mask n room.now lines }
    ensures { Found (theirs n lines room.now) (ours rows.now mask) n result }
{
    let start = tell(rows, mask, n, room, lines, 0, 0);
    if start == 1 {
        return Judged::Right;
    }
    walk(rows, mask, n, room, lines)
}

// The judgement of a text of clean lines. The room is left all zero.
pub fn judged(
    rows: &[u64],
    mask: u64,
    n: usize,
    text: &[u8],
    lines: usize,
    room: &mut [u64],
) -> Judgement
    requires { JudgedAsks rows.now mask n text.now lines room.old }
    ensures judged_to { JudgedTo (listed_graph n (branches_of (entries n text.now))) rows.now mask n result }
    ensures room_after { room.new ≡ replicate (length room.old) 0 }
{
    fill(text, n, &mut *room);
    tell_all(rows, mask, n, &mut *room, lines);
    let found = verdict(rows, mask, n, &*room, lines);
    mark_all(&mut *room, lines);
    let reply = with_surplus(found, rows, n, &*room, lines);
    room.fill(0);
    reply
}
