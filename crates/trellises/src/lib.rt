// The trellis of a plate: its sections as plain numbers, and its branches.
#![tactic(auto)]

ghost use Rattle.plates.specs.Prepare.{lent};
ghost use Rattle.trellises.specs.Branching.{Branches};

use plates::{Parts, Refusal};

mod branching;
pub mod places;
pub mod sections;

// A section of the trellis as numbers. A branch of it is a number whose digits say which of the active rows it takes, the row with
// the lowest head having weight 1. 2^live states stand at the section's depth; where a row begins, it has weight 2^live; where one
// ends, it has weight 2^ending; the column is the section's position of each active row.
#[derive(Clone, Copy)]
pub struct Section {
    pub live: usize,
    pub begins: bool,
    pub ends: bool,
    pub ending: usize,
    pub column: u64,
}

// The branch of a plate's trellis that leaves a state with a bit: where it leads, or that there is none.
pub fn branch_parts<'a>(
    plate: Parts<'a>,
    depth: usize,
    state: usize,
    bit: u64,
) -> Result<Option<usize>, Refusal>
    ensures { Branches (lent plate.entry) depth state bit result }
{
    if !plates::parts_prepared(plate) {
        return Err(Refusal::NotPrepared);
    }
    if plate.n <= depth {
        return Err(Refusal::NoSuchBranch);
    }
    if 1 < bit {
        return Err(Refusal::NoSuchBranch);
    }
    let section = sections::section_of(&plate.rows[..plate.k], depth);
    if places::weight_of(section.live) <= state {
        return Err(Refusal::NoSuchBranch);
    }
    // the branch's bit is the mask's added to that of the code's branch
    Ok(branching::next_of(section, state, bit ^ words::bit_at(plate.mask, depth)))
}
