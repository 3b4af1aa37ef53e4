// By how much a right listing has more states and branches than our trellis, of those on full paths.
ghost use Rattle.std.specs.Prelude.{◌+◌, ◌≤◌, replicate, ◌≡◌, Ok};
ghost use Rattle.trellises.specs.Numbers.{branch_count};
ghost use Rattle.judging.specs.Ours.{Small};
ghost use Rattle.judging.specs.Room.{theirs};
ghost use Rattle.judging.specs.Steps.{SurplusAsks, SurplusFor};
ghost use Rattle.judging.specs.Surplus.{SurplusOver, SurplusIn};
ghost use Rattle.judging.specs.declared.Judged.TheVariants.{Right};

use crate::marks::{count_first, count_used};
use crate::{Judged, Judgement};
use plates::Refusal;
use trellises::Section;
use trellises::places::weight_of;

// How many branches a section of ours has.
fn branch_number(section: Section) -> usize
    requires { Small section }
    ensures { result ≡ branch_count section }
{
    let states = weight_of(section.live);
    if section.begins {
        return states + states;
    }
    states
}

// By how much a number is more than another.
fn over(count: usize, own: usize) -> u64
    requires { own ≤ count }
    ensures { own + result ≡ count }
{
    (count - own) as u64
}

// A verdict with no surplus beside it.
pub fn without_surplus(verdict: Result<Judged, Refusal>) -> Judgement
    ensures { (result.verdict ≡ verdict) × (result.states ≡ replicate 65 0) × (result.branches ≡ replicate 64 0) }
{
    Judgement {
        verdict,
        states: [0; 65],
        branches: [0; 64],
    }
}

// The surplus of a right listing, whose lines are marked.
fn surplus_of(rows: &[u64], n: usize, room: &[u64], lines: usize) -> Judgement
    requires { SurplusAsks rows.now n room.now lines }
    ensures { (result.verdict ≡ Ok Right) × SurplusOver (theirs n lines room.now) n rows.now result.states result.branches }
{
    let mut states = [0u64; 65];
    let mut branches = [0u64; 64];
    for t in 0..n {
        let section = trellises::sections::section_of(rows, t);
        let depth = t as u64;
        let firsts = count_first(room, lines, depth);
        let own = weight_of(section.live);
        states[t] = over(firsts, own);
        let used = count_used(room, lines, depth);
        let number = branch_number(section);
        branches[t] = over(used, number);
    }
    Judgement {
        verdict: Ok(Judged::Right),
        states,
        branches,
    }
}

// The verdict with the surplus beside it, where it is right.
pub fn with_surplus(
    verdict: Judged,
    rows: &[u64],
    n: usize,
    room: &[u64],
    lines: usize,
) -> Judgement
    requires { SurplusFor verdict rows.now n room.now lines }
    ensures { (result.verdict ≡ Ok verdict) × SurplusIn (theirs n lines room.now) n rows.now (Ok verdict) result.states result.branches }
{
    match verdict {
        Judged::Right => surplus_of(rows, n, room, lines),
        Judged::SpelledWrongly(_) | Judged::NotSpelled(_) => without_surplus(Ok(verdict)),
    }
}
