// 64 states at a time, in two strips of 32, in a shape that the compiler turns into vector code.
ghost use Rattle.std.specs.Prelude.{cond, false, true, ◌≡◌, ◌%◌, ◌*◌, ◌+◌, ◌<◌, eqb};
ghost use Rattle.decoding.specs.Halves.{StripDone, StripFits};
ghost use Rattle.decoding.specs.Picking.{LoneFits, LoneTaken, Lones, LonesFit, PickFits, PickTaken, Picks, PicksFit};

use crate::states::{Run, Step};
use crate::{Counts, choices, patterns, states, strips};

// What was picked: a one for each state that took its second branch, and the counts with theirs.
#[derive(Clone, Copy)]
pub struct Picked {
    pub word: u32,
    pub counts: Counts,
}

// The weight where the digit is not 0.
fn weighed(digit: u32, weight: u32) -> u32
    ensures { result ≡ cond (eqb digit 0) 0 weight }
{
    if digit == 0 { 0 } else { weight }
}

// State i of a strip, which two branches leave.
fn pick(
    metrics: &mut [i32],
    at: usize,
    near: &[i32; 32],
    far: &[i32; 32],
    weights: &[u32; 32],
    signs: &[i32; 64],
    ties: &[i32; 64],
    side: usize,
    i: usize,
    picked: Picked,
) -> Picked
    requires { PickFits metrics.old at near.now far.now weights.now signs.now ties.now side i picked }
    ensures { PickTaken metrics.old at near.now far.now signs.now ties.now side i picked metrics.new result }
{
    let choice = choices::choose(
        near[i],
        far[i],
        signs[side + i],
        ties[side + i],
        picked.counts,
    );
    metrics[at + i] = choice.metric;
    Picked {
        word: picked.word | weighed(choice.second, weights[i]),
        counts: choice.counts,
    }
}

// The states of a strip, which two branches each leave.
fn picks(
    metrics: &mut [i32],
    at: usize,
    near: &[i32; 32],
    far: &[i32; 32],
    weights: &[u32; 32],
    signs: &[i32; 64],
    ties: &[i32; 64],
    side: usize,
    counts: Counts,
) -> Picked
    requires { PicksFit metrics.old at near.now far.now weights.now signs.now ties.now side counts }
    ensures { Picks metrics.old at near.now far.now signs.now ties.now side 32 counts metrics.new result }
{
    let mut picked = Picked { word: 0, counts };
    for i in 0..32 {
        picked = pick(
            metrics, at, near, far, weights, signs, ties, side, i, picked,
        );
    }
    picked
}

// State i of a strip, which one branch leaves.
fn take_only(
    metrics: &mut [i32],
    at: usize,
    near: &[i32; 32],
    signs: &[i32; 64],
    side: usize,
    i: usize,
    counts: Counts,
) -> Counts
    requires { LoneFits metrics.old at near.now signs.now side i counts }
    ensures { LoneTaken metrics.old at near.now signs.now side i counts metrics.new result }
{
    let choice = choices::alone(near[i], signs[side + i], counts);
    metrics[at + i] = choice.metric;
    choice.counts
}

// The states of a strip, which one branch each leaves.
fn take_only_each(
    metrics: &mut [i32],
    at: usize,
    near: &[i32; 32],
    signs: &[i32; 64],
    side: usize,
    counts: Counts,
) -> Counts
    requires { LonesFit metrics.old at near.now signs.now side counts }
    ensures { Lones metrics.old at near.now signs.now side 32 counts metrics.new result }
{
    let mut raised = counts;
    for i in 0..32 {
        raised = take_only(metrics, at, near, signs, side, i, raised);
    }
    raised
}

// Where a strip's side of the tables begins: that of the pattern, or of its complement.
fn side_of(bits: u64) -> usize
    ensures { result ≡ bits % 2 * 32 }
{
    ((bits & 1) << 5) as usize
}

// A strip of 32 states from `first` on, whose bits are the lowest of `bits`. What the gain adds is in the tables.
fn strip(
    metrics: &mut [i32],
    step: Step,
    weights: &[u32; 32],
    signs: &[i32; 64],
    ties: &[i32; 64],
    bits: u64,
    first: usize,
    near: &mut [i32; 32],
    far: &mut [i32; 32],
    counts: Counts,
) -> Run
    requires { StripFits metrics.old step.from step.to step.section step.gain weights.now signs.now ties.now bits first 32 near.old far.old counts }
    ensures { StripDone metrics.old step.from step.to step.section step.gain first 32 counts metrics.new near.new far.new result }
{
    let place = step.place();
    let side = side_of(bits);
    let word = patterns::lower_half(bits) as u64;
    let at = step.to + first;
    strips::fetch(metrics, step.from, place, first, near);
    if step.section.begins {
        let second = first + states::power(step.section.live);
        strips::fetch(metrics, step.from, place, second, far);
        let picked = picks(metrics, at, near, far, weights, signs, ties, side, counts);
        return Run {
            word: word ^ (picked.word as u64),
            counts: picked.counts,
        };
    }
    let raised = take_only_each(metrics, at, near, signs, side, counts);
    Run {
        word,
        counts: raised,
    }
}

// The 64 states of a decision word from `first` on, whose bits are `bits`: the upper strip, then the lower.
pub fn block(
    metrics: &mut [i32],
    step: Step,
    weights: &[u32; 32],
    signs: &[i32; 64],
    ties: &[i32; 64],
    bits: u64,
    first: usize,
    near: &mut [i32; 32],
    far: &mut [i32; 32],
    counts: Counts,
) -> Run
    requires { StripFits metrics.old step.from step.to step.section step.gain weights.now signs.now ties.now bits first 64 near.old far.old counts }
    ensures { StripDone metrics.old step.from step.to step.section step.gain first 64 counts metrics.new near.new far.new result }
{
    let mut word: u64 = 0;
    let mut raised = counts;
    for half in (0..2).rev() {
        let i = half * 32;
        let run = strip(
            metrics,
            step,
            weights,
            signs,
            ties,
            bits >> i,
            first + i,
            near,
            far,
            raised,
        );
        word = (word << 32) | run.word;
        raised = run.counts;
    }
    Run {
        word,
        counts: raised,
    }
}
