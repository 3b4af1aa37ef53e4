// The numbers of a sheet: n on the cover, counters and samples.
ghost use Rattle.std.specs.Prelude.{◌+◌, ◌-◌, ◌^◌, ◌≤◌, ◌<◌, pos, neg_ℤ, length, ◌≡◌};
ghost use Rattle.sheets.specs.Numbers.{counter_of, leading_zero, digits_of, number_of, negated, sample_of};
ghost use Rattle.sheets.specs.Readers.{Below, NumberRead};

use crate::scan::within;

// The value of a digit.
fn digit(x: u8) -> usize
    requires { 48 ≤ x }
    ensures { result ≡ x - 48 }
{
    (x - b'0') as usize
}

// The value of a run of at most five digits.
fn read_digits(f: &[u8]) -> Option<usize>
    requires { length f.now ≤ 5 }
    ensures { NumberRead (digits_of 0 f.now) (10 ^ length f.now) result }
{
    let mut value: usize = 0;
    for x in f {
        if !within(*x, b'0', b'9') {
            return None;
        }
        value = value * 10 + digit(*x);
    }
    Some(value)
}

// Whether a zero stands before something.
fn leading_zero(f: &[u8]) -> bool
    ensures { result ≡ leading_zero f.now }
{
    1 < f.len() && f[0] == b'0'
}

// A number of one to `most` digits, with no leading zero but for 0 itself.
pub fn read_number(f: &[u8], most: usize) -> Option<usize>
    requires { most ≤ 5 }
    ensures { NumberRead (number_of most f.now) (10 ^ most) result }
{
    let length = f.len();
    if length == 0 {
        return None;
    }
    if most < length {
        return None;
    }
    if leading_zero(f) {
        return None;
    }
    read_digits(f)
}

// A counter: a number of one to five digits, at most 65535.
pub fn read_counter_field(f: &[u8]) -> Option<usize>
    ensures value { result ≡ counter_of f.now }
    ensures below { Below 65536 result }
{
    let Some(value) = read_number(f, 5) else {
        return None;
    };
    if value <= 65535 {
        return Some(value);
    }
    None
}

// A number of four digits as a signed one.
fn as_signed(value: usize) -> i16
    requires { value < 10000 }
    ensures { result ≡ pos value }
{
    value as i16
}

// The same below zero.
fn below_zero(value: usize) -> i16
    requires { value < 10000 }
    ensures { result ≡ neg_ℤ (pos value) }
{
    0 - as_signed(value)
}

// The sample after a minus, which never stands before 0.
fn after_minus(f: &[u8]) -> Option<i16>
    ensures { result ≡ negated (number_of 4 f.now) }
{
    let Some(value) = read_number(f, 4) else {
        return None;
    };
    if value == 0 {
        return None;
    }
    Some(below_zero(value))
}

// A sample: a number of one to four digits, or a minus and one that is not 0.
pub fn read_sample(f: &[u8]) -> Option<i16>
    ensures { result ≡ sample_of f.now }
{
    if f.len() == 0 {
        return None;
    }
    if f[0] == b'-' {
        return after_minus(&f[1..]);
    }
    let Some(value) = read_number(f, 4) else {
        return None;
    };
    Some(as_signed(value))
}
