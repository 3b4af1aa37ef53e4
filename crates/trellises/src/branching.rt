// The branch of a section that leaves a state with a bit.
ghost use Rattle.std.specs.Prelude.{◌≡◌, ◌<◌, ◌^◌, ◌≤◌};
ghost use Rattle.trellises.specs.Following.{next_of};

use crate::Section;
use crate::places::{next_state, weight_of};

// The branch of a section that leaves a state with a bit.
pub fn next_of(section: Section, state: usize, bit: u64) -> Option<usize>
    requires live_bound { section.live ≤ 12 }
    requires state_bound { state < 2 ^ section.live }
    ensures { result ≡ next_of section state bit }
{
    if words::parity_with(state as u64, section.column) == bit {
        return Some(next_state(section, state));
    }
    if section.begins {
        let weight = weight_of(section.live);
        return Some(next_state(section, state + weight));
    }
    None
}
