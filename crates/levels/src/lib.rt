// Levels of single-precision samples: of a single one, and of the n samples of a block.
#![tactic(auto)]

ghost use Rattle.std.specs.Prelude.{◌≡◌};
ghost use Rattle.levels.specs.Choosing.{sample_of};
ghost use Rattle.levels.specs.Giving.{GivesLevel, GivesLevels};

use crate::values::{first_not_a_number, is_not_a_number};
use plates::Refusal;

mod choosing;
mod settings;
mod values;

// How levels are chosen: a level is as many steps, up to the top level.
#[derive(Clone, Copy)]
pub struct Setting {
    pub step: f32,
    pub top: u8,
}

// A sample as the receiver hands it over.
#[derive(Clone, Copy)]
pub enum Sample {
    Heard(f32),
    Erased,
}

// The sample of a value and its mark: erased unless the mark is 0.
pub fn sample_of(value: f32, mark: u64) -> Sample
    ensures { result ≡ sample_of value mark }
{
    if mark == 0 {
        return Sample::Heard(value);
    }
    Sample::Erased
}

// The level of a single sample.
pub fn level_of(setting: Setting, sample: Sample) -> Result<i16, Refusal>
    ensures { GivesLevel setting sample result }
{
    if !settings::is_good(setting) {
        return Err(Refusal::BadSetting);
    }
    if is_not_a_number(sample) {
        return Err(Refusal::NotANumber(0));
    }
    Ok(choosing::level_of_sample(setting, sample))
}

// The levels of a block of n values, of which those at the marked positions are erased.
pub fn levels_of(
    n: usize,
    setting: Setting,
    values: &[f32],
    erased: u64,
    room: &mut [i16],
) -> Result<(), Refusal>
    ensures { GivesLevels n setting values.now erased room.old room.new result }
{
    if n == 0 {
        return Err(Refusal::Length);
    }
    if 64 < n {
        return Err(Refusal::Length);
    }
    if !settings::is_good(setting) {
        return Err(Refusal::BadSetting); // before the counts
    }
    if values.len() != n {
        return Err(Refusal::SampleCount);
    }
    if room.len() != n {
        return Err(Refusal::SampleCount);
    }
    if let Some(first) = first_not_a_number(values, erased) {
        return Err(Refusal::NotANumber(first));
    }
    choosing::write_levels(setting, values, erased, &mut *room);
    Ok(())
}
