// The level of a sample, and those of a block.
ghost use Rattle.std.specs.Prelude.{◌≤◌};
ghost use Rattle.levels.specs.Choosing.{Largest, LevelOf, LevelOfSample, LevelsOf};
ghost use Rattle.levels.specs.Giving.{Good};
ghost use Rattle.levels.specs.Testing.{IsNumber, Raised, Writable, ZeroOrMore};

use crate::settings::times_step;
use crate::{Sample, Setting, sample_of};

// The level, or the one that is so many levels higher where it is permitted and reached.
fn raised(setting: Setting, value: f32, level: u8, more: u8) -> u8
    requires { (level ≤ 127) × (more ≤ 64) }
    ensures { Raised setting value level more result }
{
    let higher = level + more;
    if setting.top < higher {
        return level;
    }
    if times_step(higher, setting.step) <= value {
        return higher;
    }
    level
}

// The level of a value of zero or more: each turn halves the span of levels in which it lies. (A `while`: it counts no index.)
fn largest(setting: Setting, value: f32) -> u8
    requires { Good setting × ZeroOrMore value }
    ensures { Largest setting value result }
{
    let mut level = 0;
    let mut span = 128;
    while 1 < span {
        span = span / 2 + span % 2;
        level = raised(setting, value, level, span);
    }
    level
}

// The level of a value; that of a negative one is minus the level of its negation.
fn level_of_value(setting: Setting, value: f32) -> i16
    requires { Good setting × IsNumber (Sample.Heard value) }
    ensures { LevelOf setting value result }
{
    if value < 0.0 {
        return 0 - (largest(setting, -value) as i16);
    }
    largest(setting, value) as i16
}

// The level of a sample; that of an erased one is 0.
pub fn level_of_sample(setting: Setting, sample: Sample) -> i16
    requires { Good setting × IsNumber sample }
    ensures { LevelOfSample setting sample result }
{
    match sample {
        Sample::Heard(value) => level_of_value(setting, value),
        Sample::Erased => 0,
    }
}

// Writes the levels of a block into its room.
pub fn write_levels(setting: Setting, values: &[f32], erased: u64, room: &mut [i16])
    requires { Writable setting values.now erased room.old }
    ensures { LevelsOf setting values.now erased room.new }
{
    for (i, value) in values.iter().enumerate() {
        room[i] = level_of_sample(setting, sample_of(*value, words::bit_at(erased, i)));
    }
}
