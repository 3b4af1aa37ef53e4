// Which settings are permitted.
ghost use Rattle.std.specs.Float.Ieee.Scale.{finite};
ghost use Rattle.std.specs.Prelude.{◌≡◌};
ghost use Rattle.levels.specs.Choosing.{times};
ghost use Rattle.levels.specs.Testing.{TestsSetting};

use crate::Setting;

// The greatest top level.
const MOST: u8 = 127;

// A level times step, rounded once.
pub fn times_step(level: u8, step: f32) -> f32
    ensures { result ≡ times level step }
{
    (level as f32) * step
}

// Whether a setting is permitted.
pub fn is_good(setting: Setting) -> bool
    ensures { TestsSetting setting result }
{
    if !setting.step.is_finite() {
        return false;
    }
    if !times_step(setting.top, setting.step).is_finite() {
        return false;
    }
    if !(0.0 < setting.step) {
        return false;
    }
    if setting.top == 0 {
        return false;
    }
    setting.top <= MOST
}
