// The sections of a plate taken one after the other, from the far end to the start.
ghost use Rattle.std.specs.Prelude.{nat_abs, pos, get_or, length, take, ◌≡◌, ◌^◌, ◌<◌, ◌≤◌};
ghost use Rattle.decoding.specs.LiveRows.{EndsAre};
ghost use Rattle.decoding.specs.Sweeping.{BeforeSection, RoomsFit, SectionSwept, SizesFit, forced_to, gains_of};

use crate::Counts;
use crate::choices::sign_of;
use crate::live::{Live, pass_back};
use crate::states::Step;
use crate::step::step;

// How large a decode is: positions, rows, metrics in each half of the room, and decision words a section; and the rest, which codewords are
// added to give the plate's words.
#[derive(Clone, Copy)]
pub struct Sizes {
    pub n: usize,
    pub k: usize,
    pub half: usize,
    pub words: usize,
    pub rest: u64,
}

// Where the sweep stands: where the metrics of its depth begin, the rows live there, and what was counted.
#[derive(Clone, Copy)]
pub struct Standing {
    pub from: usize,
    pub live: Live,
    pub counts: Counts,
}

// A position that is taken with a gain of its own in the place of its sample; a position beyond the samples forces nothing.
#[derive(Clone, Copy)]
pub struct Forced {
    pub position: usize,
    pub gain: i32,
}

// A sample as a gain.
pub fn gain(sample: i16) -> i32
    ensures { result ≡ sample }
{
    sample as i32
}

// The sample at t, or the gain in its place.
fn forced_gain(samples: &[i16], forced: Forced, t: usize) -> i32
    requires { t < length samples.now }
    ensures { result ≡ get_or (forced_to samples.now forced) t (pos 0) }
{
    if t == forced.position {
        return forced.gain;
    }
    gain(samples[t])
}

// The gain with which section t is taken: its sign is turned where the rest has a one, so that a codeword scores what its word does.
fn gain_at(samples: &[i16], sizes: Sizes, forced: Forced, t: usize) -> i32
    requires t_in_bounds { t < length samples.now }
    requires pos_bound { nat_abs (get_or (forced_to samples.now forced) t (pos 0)) ≤ 2 ^ 20 }
    ensures { result ≡ get_or (gains_of sizes samples.now forced) t (pos 0) }
{
    sign_of(
        words::bit_at(sizes.rest, t),
        forced_gain(samples, forced, t),
    )
}

// Section t: its step, from one half of the metric room to the other, with its own part of the decision words.
fn sweep_section(
    rows: &[u64],
    sizes: Sizes,
    ends: &[u8; 64],
    samples: &[i16],
    forced: Forced,
    t: usize,
    metrics: &mut [i32],
    decisions: &mut [u64],
    at: Standing,
) -> Standing
    requires { BeforeSection rows.now sizes ends.now (gains_of sizes samples.now forced) t metrics.old decisions.old at }
    ensures { SectionSwept rows.now sizes (gains_of sizes samples.now forced) t metrics.old decisions.old metrics.new decisions.new result }
{
    let passed = pass_back(rows, sizes.k, ends, at.live, t);
    let taken = Step {
        from: at.from,
        to: sizes.half - at.from,
        section: passed.section,
        gain: gain_at(samples, sizes, forced, t),
    };
    let begin = t * sizes.words;
    let end = begin + sizes.words;
    let counts = step(metrics, taken, &mut decisions[begin..end], at.counts);
    Standing {
        from: taken.to,
        live: passed.live,
        counts,
    }
}

// All sections, the forced one with its own gain.
// kept: rows, sizes and ends go one by one; as one value passed on it was slower (the (8,4) code by 6 %) and took 112 bytes more of stack.
pub fn sweep(
    rows: &[u64],
    sizes: Sizes,
    ends: &[u8; 64],
    samples: &[i16],
    forced: Forced,
    metrics: &mut [i32],
    decisions: &mut [u64],
) -> Standing
    requires sizes_fit { SizesFit rows.now sizes }
    requires ends_are { EndsAre (take sizes.k rows.now) ends.now }
    requires rooms_fit { RoomsFit sizes (gains_of sizes samples.now forced) metrics.old decisions.old }
    ensures { SectionSwept rows.now sizes (gains_of sizes samples.now forced) 0 metrics.old decisions.old metrics.new decisions.new result }
{
    metrics[0] = 0;
    let mut at = Standing {
        from: 0,
        live: Live {
            marks: 0,
            next: sizes.k,
        },
        counts: Counts {
            additions: 0,
            comparisons: 0,
        },
    };
    for t in (0..sizes.n).rev() {
        at = sweep_section(
            rows, sizes, ends, samples, forced, t, metrics, decisions, at,
        );
    }
    at
}
