// The samples that decoding permits.
ghost use Rattle.decoding.specs.Searching.{FirstOver, IsOver};

// The greatest sample that is permitted; the least is its negation.
const LIMIT: u16 = 2047;

// Whether a sample is outside the limit.
fn is_over(sample: i16) -> bool
    ensures { IsOver sample result }
{
    LIMIT < sample.unsigned_abs()
}

// The first position whose sample is outside the limit.
pub fn first_over(samples: &[i16]) -> Option<usize>
    ensures { FirstOver samples.now result }
{
    for (i, sample) in samples.iter().enumerate() {
        if is_over(*sample) {
            return Some(i);
        }
    }
    None
}
