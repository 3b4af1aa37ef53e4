// Judging a supplier's trellis: whether the full paths of a listing of branches spell exactly a plate's words.
#![tactic(auto)]

ghost use Rattle.plates.specs.Prepare.{lent};
ghost use Rattle.judging.specs.Judging.{Judges};

use crate::lines::{count_lines, first_faulty, first_repeating};
use crate::surplus::without_surplus;
use crate::verdicts::judged;
use plates::{Parts, Plate, Refusal};

mod lines;
mod marks;
mod ours;
mod rooms;
mod surplus;
mod telling;
mod verdicts;
mod walking;

// Right; or the earliest word that is spelled wrongly or not spelled.
#[derive(Clone, Copy)]
pub enum Judged {
    Right,
    SpelledWrongly(u64),
    NotSpelled(u64),
}

// The verdict, or why the listing is refused; and, on a right listing, by how much its states by depth and its branches by section, those on
// full paths, are more than ours. All is zero beyond the plate's length, and where the listing is not right.
#[derive(Clone, Copy)]
pub struct Judgement {
    pub verdict: Result<Judged, Refusal>,
    pub states: [u64; 65],
    pub branches: [u64; 64],
}

// The listing against the plate. The room needs four numbers a line, and is left zero.
pub fn judge(plate: Plate, text: &[u8], room: &mut [u64]) -> Judgement
    ensures { Judges plate text.now room.old room.new result }
{
    let profile = plates::widened(plate.profile);
    judge_parts(plate.lend(&profile), text, room)
}

// The same against the plate of some parts.
pub fn judge_parts<'a>(plate: Parts<'a>, text: &[u8], room: &mut [u64]) -> Judgement
    ensures { Judges (lent plate.entry) text.now room.old room.new result }
{
    if !plates::parts_prepared(plate) {
        return without_surplus(Err(Refusal::NotPrepared));
    }
    let count = count_lines(text, plate.n);
    if 1024 < count {
        return without_surplus(Err(Refusal::TooManyLines));
    }
    if let Some(line) = first_faulty(text, plate.n) {
        return without_surplus(Err(Refusal::BranchFault(line + 1)));
    }
    let repeated = first_repeating(text, plate.n);
    let need = 4 * count;
    if let Some(line) = repeated {
        return without_surplus(Err(Refusal::BranchTwice(line + 1)));
    }
    if room.len() < need {
        return without_surplus(Err(Refusal::MetricRoom));
    }
    judged(
        &plate.rows[..plate.k],
        plate.mask,
        plate.n,
        text,
        count,
        &mut room[..need],
    )
}
