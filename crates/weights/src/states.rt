// The ways to the end that begin at a state of a section.
ghost use Rattle.std.specs.Prelude.{◌≡◌};
ghost use Rattle.weights.specs.Ways.{along, leaving};
ghost use Rattle.weights.specs.Tallying.{BranchFits, StateFits, olds};

use trellises::Section;
use trellises::places::{next_state, weight_of};

// The ways of a weight that begin with a branch, by those of the next depth, which begin at `from`.
fn by_branch(working: &[u64], from: usize, section: Section, number: usize, weight: usize) -> u64
    requires { BranchFits working.now from section number weight }
    ensures { result ≡ along section (olds working.now from) number weight }
{
    let at = from + next_state(section, number) * 65 + weight;
    if words::parity_with(number as u64, section.column) == 0 {
        return working[at];
    }
    if weight == 0 {
        return 0;
    }
    working[at - 1]
}

// The ways of a weight that begin at a state: by its branch and, where a row begins, by the one that takes that row too.
pub fn by_state(working: &[u64], from: usize, section: Section, state: usize, weight: usize) -> u64
    requires { StateFits working.now from section state weight }
    ensures { result ≡ leaving section (olds working.now from) state weight }
{
    let first = by_branch(working, from, section, state, weight);
    if section.begins {
        let other = state + weight_of(section.live);
        return first + by_branch(working, from, section, other, weight);
    }
    first
}
