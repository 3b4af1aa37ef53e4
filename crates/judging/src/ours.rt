// The trellis of the plate by numbers: 0 is no state, and each state is one more than its number.
ghost use Rattle.std.specs.Prelude.{◌≡◌, ◌<◌, ◌^◌, ◌≤◌, suc};
ghost use Rattle.judging.specs.Ours.{Classed, Small, follows, suits};
ghost use Rattle.judging.specs.Working.{FirstFound};

use trellises::Section;
use trellises::places::{next_state, weight_of};

// Where the branch with a bit leads from one of our numbers.
pub fn follow(section: Section, y: usize, bit: u64) -> usize
    requires small { Small section }
    requires y_bound { y ≤ 2 ^ section.live }
    ensures { result ≡ follows section y bit }
{
    if y == 0 {
        return 0;
    }
    let state = y - 1;
    if words::parity_with(state as u64, section.column) == bit {
        return next_state(section, state) + 1;
    }
    if section.begins {
        let weight = weight_of(section.live);
        return next_state(section, state + weight) + 1;
    }
    0
}

// Whether the two branches of one of our numbers lead where asked.
fn suiting(section: Section, y: usize, zero: usize, one: usize) -> bool
    requires small { Small section }
    requires y_bound { y ≤ 2 ^ section.live }
    ensures { result ≡ suits section y zero one }
{
    follow(section, y, 0) == zero && follow(section, y, 1) == one
}

// The first state whose branches lead where asked.
fn first_suiting(section: Section, zero: usize, one: usize) -> Option<usize>
    requires { Small section }
    ensures { FirstFound (2 ^ section.live) (λ a. suits section (suc a) zero one) result }
{
    let states = weight_of(section.live);
    for a in 0..states {
        if suiting(section, a + 1, zero, one) {
            return Some(a);
        }
    }
    None
}

// The number of ours whose branches lead where asked: none for none, and a number beyond all states where there is no such state.
pub fn class_of(section: Section, zero: usize, one: usize) -> usize
    requires { Small section }
    ensures { Classed section zero one result }
{
    if let Some(a) = first_suiting(section, zero, one) {
        return a + 1;
    }
    if zero == 0 && one == 0 { 0 } else { 8192 }
}
