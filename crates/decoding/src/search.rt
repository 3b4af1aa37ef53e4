// The best word of a plate, or its metric alone, before the rooms are put to zero.
ghost use Rattle.std.specs.Prelude.{take, [], ◌<◌};
ghost use Rattle.decoding.specs.LiveRows.{EndsAre};
ghost use Rattle.decoding.specs.Searching.{MetricSearched, Searched};
ghost use Rattle.decoding.specs.Sweeping.{RoomsFit, SizesFit, undecided};

use crate::Answer;
use crate::apart::Measure;
use crate::live::ending_rows;
use crate::sweep::{Forced, Sizes, sweep};
use crate::walk::read_off;

// The best word, its metric and what was counted; decisions are wanted.
pub fn search(
    rows: &[u64],
    sizes: Sizes,
    ends: &[u8; 64],
    samples: &[i16],
    metrics: &mut [i32],
    decisions: &mut [u64],
) -> Answer
    requires sizes_fit { SizesFit rows.now sizes }
    requires ends_are { EndsAre (take sizes.k rows.now) ends.now }
    requires rooms_fit { RoomsFit sizes samples.now metrics.old decisions.old }
    requires words_nonzero { 0 < sizes.words }
    ensures { Searched rows.now sizes samples.now metrics.old decisions.old metrics.new decisions.new result }
{
    let none = Forced {
        position: sizes.n,
        gain: 0,
    };
    let at = sweep(rows, sizes, ends, samples, none, metrics, decisions);
    let word = read_off(rows, sizes, ends, samples, decisions);
    Answer {
        word,
        metric: metrics[at.from],
        counts: at.counts,
    }
}

// The best metric and what was counted; decisions are not wanted, and none are kept.
pub fn search_metric(rows: &[u64], sizes: Sizes, samples: &[i16], metrics: &mut [i32]) -> Measure
    requires sizes_fit { SizesFit rows.now sizes }
    requires rooms_fit { RoomsFit (undecided sizes) samples.now metrics.old [] }
    ensures { MetricSearched rows.now sizes samples.now metrics.old metrics.new result }
{
    let ends = ending_rows(rows, sizes.k);
    let undecided = Sizes { words: 0, ..sizes };
    let none = Forced {
        position: sizes.n,
        gain: 0,
    };
    let mut decisions = [0u64; 0];
    let at = sweep(
        rows,
        undecided,
        &ends,
        samples,
        none,
        metrics,
        &mut decisions,
    );
    Measure {
        metric: metrics[at.from],
        counts: at.counts,
    }
}
