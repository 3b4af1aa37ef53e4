// One step of the decoder: a section of the trellis, from the far end towards the start.
ghost use Rattle.std.specs.Prelude.{◌≡◌, ◌<◌, ◌≤◌};
ghost use Rattle.decoding.specs.Blocks.{BlockFits, WordDone};
ghost use Rattle.decoding.specs.Halves.{BlockReady};
ghost use Rattle.decoding.specs.Stepping.{StepFits, Stepped};

use crate::states::Step;
use crate::{Counts, blocks, patterns, states, tables};

// A section of less than 64 states: one decision word.
fn step_narrow(metrics: &mut [i32], step: Step, decisions: &mut [u64], counts: Counts) -> Counts
    requires { (step.section.live < 6) × StepFits metrics.old step.from step.to decisions.old step.section step.gain counts }
    ensures { Stepped metrics.old step.from step.to decisions.old step.section step.gain counts metrics.new decisions.new result }
{
    let pattern = patterns::pattern(step.section.column);
    let count = states::power(step.section.live);
    let run = states::states(metrics, step, pattern, 0, count, counts);
    words::put(decisions, 0, run.word);
    run.counts
}

// The 64 states of decision word `at`.
fn word(
    metrics: &mut [i32],
    step: Step,
    decisions: &mut [u64],
    weights: &[u32; 32],
    signs: &[i32; 64],
    ties: &[i32; 64],
    pattern: u64,
    at: usize,
    near: &mut [i32; 32],
    far: &mut [i32; 32],
    counts: Counts,
) -> Counts
    requires { BlockReady step.section step.gain weights.now signs.now ties.now near.old far.old × BlockFits metrics.old step.from step.to step.section step.gain pattern at 64 counts }
    ensures { WordDone metrics.old step.from step.to decisions.old step.section step.gain at counts metrics.new decisions.new near.new far.new result }
{
    let first = at * 64;
    let bits = patterns::turned(pattern, step.section.column, first);
    let run = blocks::block(
        metrics, step, weights, signs, ties, bits, first, near, far, counts,
    );
    words::put(decisions, at, run.word);
    run.counts
}

// A section of 64 states or more: one decision word after the other.
fn step_wide(metrics: &mut [i32], step: Step, decisions: &mut [u64], counts: Counts) -> Counts
    requires { (6 ≤ step.section.live) × StepFits metrics.old step.from step.to decisions.old step.section step.gain counts }
    ensures { Stepped metrics.old step.from step.to decisions.old step.section step.gain counts metrics.new decisions.new result }
{
    let pattern = patterns::pattern(step.section.column);
    let words = states::power(step.section.live - 6);
    let weights = tables::WEIGHTS;
    let mut signs = [0i32; 64];
    let mut ties = [0i32; 64];
    let mut near = [0i32; 32];
    let mut far = [0i32; 32];
    tables::fill(
        &mut signs,
        &mut ties,
        &weights,
        patterns::lower_half(pattern),
        step.gain,
    );
    let mut raised = counts;
    for at in 0..words {
        raised = word(
            metrics, step, decisions, &weights, &signs, &ties, pattern, at, &mut near, &mut far,
            raised,
        );
    }
    raised
}

// One section: the metrics of the next depth give those of this depth, and the decisions where they are wanted; each branch added and each
// comparison made is counted.
pub fn step(metrics: &mut [i32], step: Step, decisions: &mut [u64], counts: Counts) -> Counts
    requires { StepFits metrics.old step.from step.to decisions.old step.section step.gain counts }
    ensures { Stepped metrics.old step.from step.to decisions.old step.section step.gain counts metrics.new decisions.new result }
{
    if step.section.live < 6 {
        step_narrow(metrics, step, decisions, counts)
    } else {
        step_wide(metrics, step, decisions, counts)
    }
}
