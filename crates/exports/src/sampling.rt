// The calls of a single-precision receiver over the C interface: the level of one value, and the levels of a block.
ghost use Rattle.std.specs.Prelude.{◌≡◌};
ghost use Rattle.exports.specs.Sampling.{CallsLevel, CallsLevels, Narrows, level_cells};

use crate::{MISSHAPEN, cells};
use levels::{Setting, sample_of};

// A top level as a byte: 0, which is refused like it, in the place of one over 127.
fn narrowed(top: u64) -> u8
    ensures { Narrows top result }
{
    if 127 < top {
        return 0;
    }
    top as u8
}

// The levels of a block of n values.
#[unsafe(no_mangle)]
pub extern "C" fn yendrufal_levels(
    n: u64,
    step: f32,
    top: u64,
    values: &[f32],
    erased: u64,
    room: &mut [i16],
    at: &mut [u64],
) -> u64
    ensures { CallsLevels n step top values.now erased (level_cells room.old at.old) result (level_cells room.new at.new) }
{
    if at.len() < 1 {
        return MISSHAPEN;
    }
    let setting = Setting {
        step,
        top: narrowed(top),
    };
    match levels::levels_of(n as usize, setting, values, erased, room) {
        Ok(()) => {
            at[0] = 0;
            0
        }
        Err(refusal) => cells::refused_at(refusal, at),
    }
}

// The level of one value.
#[unsafe(no_mangle)]
pub extern "C" fn yendrufal_level(
    step: f32,
    top: u64,
    value: f32,
    erased: u64,
    level: &mut [i16],
) -> u64
    ensures { CallsLevel step top value erased level.old result level.new }
{
    if level.len() < 1 {
        return MISSHAPEN;
    }
    let setting = Setting {
        step,
        top: narrowed(top),
    };
    match levels::level_of(setting, sample_of(value, erased)) {
        Ok(found) => {
            level[0] = found;
            0
        }
        Err(refusal) => plates::refusal_number(refusal),
    }
}
