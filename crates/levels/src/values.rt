// The values of a block: which are heard, and which of these are no numbers.
ghost use Rattle.std.specs.Prelude.{◌≡◌};
ghost use Rattle.levels.specs.Giving.{not_a_number};
ghost use Rattle.levels.specs.Testing.{FirstNotANumber};

use crate::{Sample, sample_of};

// Whether a sample is heard and its value not a number.
pub fn is_not_a_number(sample: Sample) -> bool
    ensures { result ≡ not_a_number sample }
{
    match sample {
        Sample::Heard(value) => value.is_nan(),
        Sample::Erased => false,
    }
}

// The first position whose value is heard and not a number.
pub fn first_not_a_number(values: &[f32], erased: u64) -> Option<usize>
    ensures { FirstNotANumber values.now erased result }
{
    for (i, value) in values.iter().enumerate() {
        if is_not_a_number(sample_of(*value, words::bit_at(erased, i))) {
            return Some(i);
        }
    }
    None
}
