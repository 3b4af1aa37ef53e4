// The tally of a shift, kept from heard line to heard line.
ghost use Rattle.std.specs.Prelude.{◌≡◌, ◌+◌, ◌-◌, ◌%◌, ◌<◌, ◌≤◌, length};
ghost use Rattle.reports.specs.Tally.{advance, decoded_share, found_share, gained, is_repeat, lost, no_tally, opposes, opposing, raised_by, reference_by, reference_of, refused_share, repeated_share, share, standing, standing_by, zeros};

use decoding::Answer;
use listings::Tally;
use plates::Refusal;

// Where a line that is not refused stands by its counter: the first, a repeat, out of turn, or onward with so many counters missing.
#[derive(Clone, Copy)]
pub enum Standing {
    First,
    Repeat,
    OutOfTurn,
    Onward(u64),
}

// What is kept: the reference, which is the counter that the next line's is taken from, once a line has set it; and the tally so far.
#[derive(Clone, Copy)]
pub struct Kept {
    pub reference: Option<u16>,
    pub tally: Tally,
}

// Nothing yet.
pub fn none() -> Tally
    ensures { result ≡ no_tally }
{
    Tally {
        decoded: 0,
        refused: 0,
        repeated: 0,
        late: 0,
        missing: 0,
        opposing: 0,
        zeros: 0,
        above: 0,
        below: 0,
    }
}

// The difference of counters modulo 65536, this one's less the reference.
fn advance(counter: u16, reference: u16) -> u16
    ensures { result ≡ advance counter reference }
{
    std::num::wrapping_sub_u16(counter, reference)
}

// Where a line with this advance stands.
fn standing_by(step: u16) -> Standing
    ensures { result ≡ standing_by step }
{
    if step == 0 {
        return Standing::Repeat;
    }
    if 32767 < step {
        return Standing::OutOfTurn;
    }
    Standing::Onward((step - 1) as u64)
}

// Where a line that is not refused stands.
pub fn stands(reference: Option<u16>, counter: u16) -> Standing
    ensures { result ≡ standing reference counter }
{
    match reference {
        None => Standing::First,
        Some(before) => standing_by(advance(counter, before)),
    }
}

// Whether it is a repeat.
pub fn is_repeat(standing: Standing) -> bool
    ensures { result ≡ is_repeat standing }
{
    matches!(standing, Standing::Repeat)
}

// The reference after it.
fn reference_by(standing: Standing, counter: u16, reference: Option<u16>) -> Option<u16>
    ensures { result ≡ reference_by standing counter reference }
{
    match standing {
        Standing::First | Standing::Onward(_) => Some(counter),
        Standing::Repeat | Standing::OutOfTurn => reference,
    }
}

// The reference after a line: a refused one leaves it.
pub fn reference_of(
    reference: Option<u16>,
    counter: u16,
    decoded: Result<Answer, Refusal>,
) -> Option<u16>
    ensures { result ≡ reference_of reference counter decoded }
{
    match decoded {
        Err(_) => reference,
        Ok(_) => reference_by(stands(reference, counter), counter, reference),
    }
}

// Whether the answer's bit opposes the sample.
fn opposes(sample: i16, bit: u64) -> bool
    ensures { result ≡ opposes sample bit }
{
    if bit == 0 { sample < 0 } else { 0 < sample }
}

// At how many positions the answer opposes its sample.
fn count_opposing(samples: &[i16], word: u64) -> u64
    requires { length samples.now ≤ 64 }
    ensures { result ≡ opposing word 0 samples.now }
{
    let mut count: u64 = 0;
    for (i, sample) in samples.iter().enumerate() {
        if opposes(*sample, words::bit_at(word, i)) {
            count += 1;
        }
    }
    count
}

// How many samples are zero.
fn count_zeros(samples: &[i16]) -> u64
    requires { length samples.now ≤ 64 }
    ensures { result ≡ zeros samples.now }
{
    samples.iter().filter(|sample| **sample == 0).count() as u64
}

// A metric above 0.
fn gained(metric: i32) -> u64
    ensures { result ≡ gained metric }
{
    if metric < 0 {
        0
    } else {
        metric.unsigned_abs() as u64
    }
}

// The size of a metric below 0.
fn lost(metric: i32) -> u64
    ensures { result ≡ lost metric }
{
    if metric < 0 {
        metric.unsigned_abs() as u64
    } else {
        0
    }
}

// What a decoded line adds.
fn decoded_share(late: u64, missing: u64, samples: &[i16], answer: Answer) -> Tally
    requires { length samples.now ≤ 64 }
    ensures { result ≡ decoded_share late missing samples.now answer }
{
    let opposing = count_opposing(samples, answer.word);
    let zeros = count_zeros(samples);
    let metric = answer.metric;
    let above = gained(metric);
    let below = lost(metric);
    Tally {
        decoded: 1,
        refused: 0,
        repeated: 0,
        late,
        missing,
        opposing,
        zeros,
        above,
        below,
    }
}

// What a refused line adds.
fn refused_share() -> Tally
    ensures { result ≡ refused_share }
{
    Tally {
        refused: 1,
        ..none()
    }
}

// What a repeat adds.
fn repeated_share() -> Tally
    ensures { result ≡ repeated_share }
{
    Tally {
        repeated: 1,
        ..none()
    }
}

// What a line that is not refused adds.
fn found_share(standing: Standing, samples: &[i16], answer: Answer) -> Tally
    requires { length samples.now ≤ 64 }
    ensures { result ≡ found_share standing samples.now answer }
{
    match standing {
        Standing::First => decoded_share(0, 0, samples, answer),
        Standing::Repeat => repeated_share(),
        Standing::OutOfTurn => decoded_share(1, 0, samples, answer),
        Standing::Onward(missing) => decoded_share(0, missing, samples, answer),
    }
}

// What a line adds.
pub fn share(
    reference: Option<u16>,
    counter: u16,
    samples: &[i16],
    decoded: Result<Answer, Refusal>,
) -> Tally
    requires { length samples.now ≤ 64 }
    ensures { result ≡ share reference counter samples.now decoded }
{
    match decoded {
        Err(_) => refused_share(),
        Ok(answer) => found_share(stands(reference, counter), samples, answer),
    }
}

// Number by number, in 64 bits.
pub fn raise(tally: Tally, by: Tally) -> Tally
    ensures { result ≡ raised_by tally by }
{
    Tally {
        decoded: std::num::wrapping_add_u64(tally.decoded, by.decoded),
        refused: std::num::wrapping_add_u64(tally.refused, by.refused),
        repeated: std::num::wrapping_add_u64(tally.repeated, by.repeated),
        late: std::num::wrapping_add_u64(tally.late, by.late),
        missing: std::num::wrapping_add_u64(tally.missing, by.missing),
        opposing: std::num::wrapping_add_u64(tally.opposing, by.opposing),
        zeros: std::num::wrapping_add_u64(tally.zeros, by.zeros),
        above: std::num::wrapping_add_u64(tally.above, by.above),
        below: std::num::wrapping_add_u64(tally.below, by.below),
    }
}
