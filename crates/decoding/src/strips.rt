// A strip: the old metrics of 32 branches side by side. Four at a time are read before any is stored, so that they are moved together.
ghost use Rattle.std.specs.Prelude.{◌≡◌};
ghost use Rattle.decoding.specs.Strips.{FetchFits, FourFit, GatherFits, Gathered, RunsFit, doubled, four, landing, paired, straight};

use crate::states;

// Four metrics moved to stand side by side.
fn move_four(
    metrics: &[i32],
    p: usize,
    q: usize,
    r: usize,
    s: usize,
    into: &mut [i32; 32],
    i: usize,
)
    requires { FourFit metrics.now p q r s into.old i }
    ensures { into.new ≡ four metrics.now p q r s into.old i }
{
    let a = metrics[p];
    let b = metrics[q];
    let c = metrics[r];
    let d = metrics[s];
    into[i] = a;
    into[i + 1] = b;
    into[i + 2] = c;
    into[i + 3] = d;
}

// Where digit 0 is taken out, two branches after each other lead to one state.
fn doubles(metrics: &[i32], at: usize, into: &mut [i32; 32])
    requires { GatherFits metrics.now (doubled at) into.old }
    ensures { Gathered metrics.now (doubled at) 32 into.new }
{
    for i in (0..32).step_by(4) {
        let f = at + i / 2;
        move_four(metrics, f, f, f + 1, f + 1, into, i);
    }
}

// Where digit 1 is taken out, two branches and the two after them lead to the same two states.
fn pairs(metrics: &[i32], at: usize, into: &mut [i32; 32])
    requires { GatherFits metrics.now (paired at) into.old }
    ensures { Gathered metrics.now (paired at) 32 into.new }
{
    for i in (0..32).step_by(4) {
        let f = at + i / 2;
        move_four(metrics, f, f + 1, f, f + 1, into, i);
    }
}

// Where a digit from 2 to 4 is taken out, four branches lead to four states after each other.
fn runs(metrics: &[i32], from: usize, place: usize, x: usize, into: &mut [i32; 32])
    requires { RunsFit from place x × GatherFits metrics.now (landing from place x) into.old }
    ensures { Gathered metrics.now (landing from place x) 32 into.new }
{
    for i in (0..32).step_by(4) {
        let f = from + states::target(place, x + i);
        move_four(metrics, f, f + 1, f + 2, f + 3, into, i);
    }
}

// Where none of the lowest five digits is taken out, all lead to states after each other.
fn copies(metrics: &[i32], at: usize, into: &mut [i32; 32])
    requires { GatherFits metrics.now (straight at) into.old }
    ensures { Gathered metrics.now (straight at) 32 into.new }
{
    for i in (0..32).step_by(4) {
        let f = at + i;
        move_four(metrics, f, f + 1, f + 2, f + 3, into, i);
    }
}

// The metrics to which the branches from x on lead, x a multiple of 32.
pub fn fetch(metrics: &[i32], from: usize, place: usize, x: usize, into: &mut [i32; 32])
    requires { FetchFits metrics.now from place x into.old }
    ensures { Gathered metrics.now (landing from place x) 32 into.new }
{
    if place == 0 {
        let at = from + states::target(place, x);
        doubles(metrics, at, into);
        return;
    }
    if place == 1 {
        let at = from + states::target(place, x);
        pairs(metrics, at, into);
        return;
    }
    if place < 5 {
        runs(metrics, from, place, x, into);
        return;
    }
    let at = from + states::target(place, x);
    copies(metrics, at, into);
}
