// The states of a section: what one of them takes, and a run of them from the top one down.
ghost use Rattle.std.specs.Prelude.{false, true, ◌≡◌, ◌+◌, ◌<◌, ◌^◌};
ghost use Rattle.decoding.specs.Running.{Part, RunFits, SourceFits, StateFits, place_of};
ghost use Rattle.decoding.specs.Stepping.{SectionFits};
ghost use Rattle.trellises.specs.Numbers.{leads_to, without};

use crate::{Counts, choices};
use trellises::Section;

// A section as a step takes it: where the metrics of the next depth begin, where those of this depth go, the section, and the gain with
// which it is taken.
#[derive(Clone, Copy)]
pub struct Step {
    pub from: usize,
    pub to: usize,
    pub section: Section,
    pub gain: i32,
}

// A run of states: their decisions, the lowest state's in the lowest bit, and the counts with their own.
#[derive(Clone, Copy)]
pub struct Run {
    pub word: u64,
    pub counts: Counts,
}

// 2^k.
pub fn power(k: usize) -> usize
    requires { k < 64 }
    ensures { result ≡ 2 ^ k }
{
    1 << k
}

// A branch with a digit taken out: where it leads.
pub fn target(place: usize, x: usize) -> usize
    requires { place < 64 }
    ensures { result ≡ without place x }
{
    let p = power(place);
    x / p / 2 * p + x % p
}

impl Step {
    // The digit that the section's branches lose; where no row ends, one past all their digits.
    pub fn place(self) -> usize
        ensures { result ≡ place_of self.section }
    {
        if self.section.ends {
            self.section.ending
        } else {
            13
        }
    }

    // Where the metric stands to which a branch leads.
    fn source(self, x: usize) -> usize
        requires { SourceFits self.from self.section x }
        ensures { result ≡ self.from + leads_to self.section x }
    {
        self.from + target(self.place(), x)
    }

    // How far the second branch of a state leads past its first.
    fn stride(self) -> usize
        requires { SectionFits self.section }
        ensures { result ≡ leads_to self.section (2 ^ self.section.live) }
    {
        target(self.place(), power(self.section.live))
    }
}

// A state that one branch leaves.
fn one_branch(metrics: &mut [i32], step: Step, parity: u64, state: usize, counts: Counts) -> Run
    requires { (step.section.begins ≡ false) × StateFits metrics.old step.from step.to step.section step.gain parity state counts }
    ensures { Part metrics.old step.from step.to step.section step.gain state 1 counts metrics.new result }
{
    let near = step.source(state);
    let a = metrics[near];
    let taken = choices::alone(a, choices::sign_of(parity, step.gain), counts);
    metrics[step.to + state] = taken.metric;
    Run {
        word: parity,
        counts: taken.counts,
    }
}

// A state that two branches leave, with different bits.
fn two_branches(metrics: &mut [i32], step: Step, parity: u64, state: usize, counts: Counts) -> Run
    requires { (step.section.begins ≡ true) × StateFits metrics.old step.from step.to step.section step.gain parity state counts }
    ensures { Part metrics.old step.from step.to step.section step.gain state 1 counts metrics.new result }
{
    let near = step.source(state);
    let far = near + step.stride();
    let a = metrics[near];
    let b = metrics[far];
    let sign = choices::sign_of(parity, step.gain);
    let taken = choices::choose(a, b, sign, choices::tie_of(parity), counts);
    metrics[step.to + state] = taken.metric;
    Run {
        word: (taken.second as u64) ^ parity,
        counts: taken.counts,
    }
}

// One state: the branches that leave it.
fn state(metrics: &mut [i32], step: Step, parity: u64, state: usize, counts: Counts) -> Run
    requires { StateFits metrics.old step.from step.to step.section step.gain parity state counts }
    ensures { Part metrics.old step.from step.to step.section step.gain state 1 counts metrics.new result }
{
    if step.section.begins {
        two_branches(metrics, step, parity, state, counts)
    } else {
        one_branch(metrics, step, parity, state, counts)
    }
}

// A run of at most 64 states, from the top one down.
pub fn states(
    metrics: &mut [i32],
    step: Step,
    pattern: u64,
    first: usize,
    count: usize,
    counts: Counts,
) -> Run
    requires { RunFits metrics.old step.from step.to step.section step.gain pattern first count counts }
    ensures { Part metrics.old step.from step.to step.section step.gain first count counts metrics.new result }
{
    let mut word: u64 = 0;
    let mut raised = counts;
    for i in (0..count).rev() {
        let run = state(metrics, step, (pattern >> i) & 1, first + i, raised);
        word = (word << 1) | run.word;
        raised = run.counts;
    }
    Run {
        word,
        counts: raised,
    }
}
