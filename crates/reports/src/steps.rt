// The steps of a report: the report after a line, and the step with what came of it.
ghost use Rattle.std.specs.Prelude.{◌≡◌, ◌≤◌, length};
ghost use Rattle.reports.specs.Steps.{after_line, kept_after, refused_step, silent_step, step_by, to};

use crate::tally::{Kept, raise, reference_of, share};
use crate::{Report, Stage, Step};
use decoding::Answer;
use plates::Refusal;

// The same report, at another stage and place.
pub fn at_stage(report: Report, stage: Stage, at: usize) -> Report
    ensures { result ≡ to stage at report }
{
    Report {
        stage,
        at,
        ..report
    }
}

// What is kept after a line.
fn kept_after(
    heard: bool,
    kept: Kept,
    counter: u16,
    samples: &[i16],
    decoded: Result<Answer, Refusal>,
) -> Kept
    requires { length samples.now ≤ 64 }
    ensures { result ≡ kept_after heard kept counter samples.now decoded }
{
    if heard {
        let before = kept.reference;
        let reference = reference_of(before, counter, decoded);
        let so_far = kept.tally;
        let tally = raise(so_far, share(before, counter, samples, decoded));
        return Kept { reference, tally };
    }
    kept
}

// The report after a line of this counter and these samples, the next beginning at `next`.
pub fn after_line(
    report: Report,
    next: usize,
    counter: u16,
    samples: &[i16],
    decoded: Result<Answer, Refusal>,
) -> Report
    requires { length samples.now ≤ 64 }
    ensures { result ≡ after_line next report counter samples.now decoded }
{
    let kept = kept_after(report.heard, report.kept, counter, samples, decoded);
    Report {
        stage: Stage::BlockLines,
        at: next,
        kept,
        ..report
    }
}

// The step by what writing its line replied.
pub fn step_by(written: Result<usize, Refusal>, before: Report, after: Report) -> Step
    ensures { result ≡ step_by written before after }
{
    match written {
        Ok(size) => Step {
            outcome: Ok(Some(size)),
            next: after,
        },
        Err(refusal) => Step {
            outcome: Err(refusal),
            next: before,
        },
    }
}

// A refusal of what was lent.
pub fn refused_step(refusal: Refusal, report: Report) -> Step
    ensures { result ≡ refused_step refusal report }
{
    Step {
        outcome: Err(refusal),
        next: report,
    }
}

// A step of no bytes.
pub fn silent_step(after: Report) -> Step
    ensures { result ≡ silent_step after }
{
    Step {
        outcome: Ok(Some(0)),
        next: after,
    }
}
