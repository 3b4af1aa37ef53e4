// Why not this word: what decoding says of a word that is named.
#![tactic(auto)]

ghost use Rattle.std.specs.Prelude.{◌+ℤ◌, length, take, ◌≡◌, ◌≤◌};
ghost use Rattle.asking.specs.Asking.{Asks, Explains};
ghost use Rattle.asking.specs.Working.{AddingFits, Asked, FirstStop, Sampled};
ghost use Rattle.decoding.specs.Cosets.{taken_off};
ghost use Rattle.decoding.specs.Metric.{metric_of};
ghost use Rattle.decoding.specs.Taking.{signed};
ghost use Rattle.plates.specs.Prepare.{lent};

use decoding::cosets::rest_of;
use decoding::{Answer, decode_parts};
use plates::{Parts, Refusal};

// Why a word was chosen or not.
#[derive(Clone, Copy)]
pub enum Reason {
    Chosen,
    NoCodeword(usize),
    ScoresLess(i32),
    TiesAndLoses(usize),
}

// What is left of a word once the first k rows are taken off it by their heads.
fn left_of(rows: &[u64], k: usize, word: u64) -> u64
    requires { k ≤ length rows.now }
    ensures { result ≡ taken_off (take k rows.now) word }
{
    rest_of(&rows[..k], word)
}

// The first one of a rest, and n where that is n or beyond.
fn stop_of(rest: u64, n: usize) -> usize
    ensures { FirstStop rest n result }
{
    let first = words::first_one(rest);
    if first < n {
        return first;
    }
    n
}

// A metric with one more position: the sample added where the bit is 0, and subtracted where it is 1.
fn with_sample(bit: u64, sample: i16, metric: i32) -> i32
    requires { AddingFits sample metric }
    ensures { result ≡ signed bit sample +ℤ metric }
{
    let gain = sample as i32;
    if bit == 0 {
        return gain + metric;
    }
    (0 - gain) + metric
}

// The metric of a word, from the last position to the first.
fn metric_of(samples: &[i16], word: u64) -> i32
    requires { Sampled samples.now }
    ensures { result ≡ metric_of samples.now word }
{
    let mut metric = 0;
    for i in (0..samples.len()).rev() {
        metric = with_sample(words::bit_at(word, i), samples[i], metric);
    }
    metric
}

// Why a word is not the answer, or that it is.
fn reason_for<'a>(plate: Parts<'a>, samples: &[i16], word: u64, answer: Answer) -> Reason
    requires { Asked (lent plate) samples.now answer }
    ensures { Explains (lent plate.entry) samples.now answer word result }
{
    if word == answer.word {
        return Reason::Chosen;
    }
    let rest = left_of(plate.rows, plate.k, word ^ plate.mask);
    if rest != 0 {
        return Reason::NoCodeword(stop_of(rest, plate.n));
    }
    let metric = metric_of(samples, word);
    let best = answer.metric;
    if metric < best {
        let difference = best - metric;
        return Reason::ScoresLess(difference);
    }
    Reason::TiesAndLoses(words::first_one(word ^ answer.word))
}

// Why a word was not the one that decoding picks: it was chosen, it is no codeword, it scores less, or it ties and loses. The plate is lent in
// parts: rows and profile are 64 and 65 words.
pub fn why_not_parts<'a>(
    plate: Parts<'a>,
    samples: &[i16],
    word: u64,
    metrics: &mut [i32],
    decisions: &mut [u64],
) -> Result<Reason, Refusal>
    ensures { Asks (lent plate.entry) samples.now word metrics.old decisions.old metrics.new decisions.new result }
{
    let answer = decode_parts(plate, samples, metrics, decisions)?;
    Ok(reason_for(plate, samples, word, answer))
}
