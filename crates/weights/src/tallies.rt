// The ways counted section by section, from the far end to the start.
ghost use Rattle.std.specs.Prelude.{length, replicate, ◌≡◌, ◌≤◌};
ghost use Rattle.weights.specs.Tallying.{Counted, StepFits, Stepped, Swept, TallyFits};

use crate::rooms::{clear, copy_out};
use crate::states::by_state;
use trellises::Section;
use trellises::places::weight_of;

// One section: the numbers of the next depth, which begin at `from`, give those of this depth, at `to`.
fn step(working: &mut [u64], from: usize, to: usize, section: Section)
    requires { StepFits working.old from to section }
    ensures { Stepped working.old from to section working.new }
{
    let size = weight_of(section.live) * 65;
    for p in 0..size {
        let ways = by_state(&*working, from, section, p / 65, p % 65);
        let at = to + p;
        working[at] = ways;
    }
}

// All sections: where the numbers of the start begin. At the far end there is one way, of weight 0.
fn sweep(rows: &[u64], n: usize, half: usize, working: &mut [u64]) -> usize
    requires { TallyFits rows.now n half working.old }
    ensures { Swept rows.now n half 0 working.new result }
{
    clear(&mut *working);
    working[0] = 1;
    let mut from = 0;
    for t in (0..n).rev() {
        let section = trellises::sections::section_of(rows, t);
        let to = half - from;
        step(&mut *working, from, to, section);
        from = to;
    }
    from
}

// The numbers of the start into the counts, and the working room put to zero.
pub fn tally(rows: &[u64], n: usize, half: usize, working: &mut [u64], counts: &mut [u64])
    requires tally_fits { TallyFits rows.now n half working.old }
    requires in_bounds { 65 ≤ length counts.old }
    ensures counted { Counted rows.now n counts.old counts.new }
    ensures working_after { working.new ≡ replicate (length working.old) 0 }
{
    let from = sweep(rows, n, half, &mut *working);
    copy_out(&*working, from, &mut *counts);
    clear(&mut *working);
}
