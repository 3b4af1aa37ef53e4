// A listing of branches judged against a plate, over the C interface.
ghost use Rattle.std.specs.Prelude.{◌≡◌, ◌≤◌, length};
ghost use Rattle.exports.specs.Verdicts.{CallsJudge, JudgementPut, VerdictTested, verdict_cells, verdict_number};
ghost use Rattle.judging.specs.Judging.{shown};

use crate::flat::parts_of;
use crate::tables::put_table;
use crate::{MISSHAPEN, cells};
use judging::{Judged, Judgement};

// Whether the runs that are lent are long enough for their fixed use.
fn judge_shaped(plate: usize, verdict: usize, states: usize, branches: usize, at: usize) -> bool
    ensures { VerdictTested plate verdict states branches at result }
{
    if plate < 132 {
        return false;
    }
    if verdict < 2 {
        return false;
    }
    if states < 65 {
        return false;
    }
    if branches < 64 {
        return false;
    }
    1 <= at
}

// Which verdict: 0 for right, 1 for a word spelled wrongly, 2 for one not spelled.
fn number_of(verdict: Judged) -> u64
    ensures { result ≡ verdict_number verdict }
{
    match verdict {
        Judged::Right => 0,
        Judged::SpelledWrongly(_) => 1,
        Judged::NotSpelled(_) => 2,
    }
}

// The word that a verdict shows; 0 for right.
fn word_of(verdict: Judged) -> u64
    ensures { result ≡ shown verdict }
{
    match verdict {
        Judged::Right => 0,
        Judged::SpelledWrongly(word) | Judged::NotSpelled(word) => word,
    }
}

// A judgement that is no refusal into its cells: the number of its verdict and the word that it shows, the surplus by depth and by section.
fn put_judgement(
    found: Judged,
    judgement: Judgement,
    verdict: &mut [u64],
    states: &mut [u64],
    branches: &mut [u64],
)
    requires { (2 ≤ length verdict.old) × (65 ≤ length states.old) × (64 ≤ length branches.old) }
    ensures { JudgementPut found judgement verdict.old states.old branches.old verdict.new states.new branches.new }
{
    verdict[0] = number_of(found);
    verdict[1] = word_of(found);
    put_table(states, &judgement.states);
    put_table(branches, &judgement.branches);
}

// The verdict on a listing of branches, and the surplus of a right one.
#[unsafe(no_mangle)]
pub extern "C" fn yendrufal_judge(
    plate: &[u64],
    text: &[u8],
    room: &mut [u64],
    verdict: &mut [u64],
    states: &mut [u64],
    branches: &mut [u64],
    at: &mut [u64],
) -> u64
    ensures { CallsJudge plate.now text.now (verdict_cells room.old verdict.old states.old branches.old at.old) result (verdict_cells room.new verdict.new states.new branches.new at.new) }
{
    if !judge_shaped(
        plate.len(),
        verdict.len(),
        states.len(),
        branches.len(),
        at.len(),
    ) {
        return MISSHAPEN;
    }
    let judgement = judging::judge_parts(parts_of(plate), text, room);
    match judgement.verdict {
        Ok(found) => {
            put_judgement(found, judgement, verdict, states, branches);
            at[0] = 0;
            0
        }
        Err(refusal) => cells::refused_at(refusal, at),
    }
}
