// The branches of one state: added, compared and counted. Numbers are chosen, not structs, so that the compiled code has no branch.
ghost use Rattle.std.specs.Prelude.{cond, ◌≡◌, ◌<◌, ◌^◌, ◌≤◌, eqb, nat_abs, pos};
ghost use Rattle.std.specs.Int.Signed.{lt_z};
ghost use Rattle.decoding.specs.Choosing.{AloneFits, AloneTaken, ChoiceFits, Chosen};
ghost use Rattle.decoding.specs.Taking.{signed};

use crate::Counts;

// What was chosen at a state: its metric, 1 where the second branch is taken, and the counts with the state's own.
#[derive(Clone, Copy)]
pub struct Choice {
    pub metric: i32,
    pub second: u32,
    pub counts: Counts,
}

// x where the digit is 0, else y.
fn either(digit: u32, x: i32, y: i32) -> i32
    ensures { result ≡ cond (eqb digit 0) x y }
{
    if digit == 0 { x } else { y }
}

// 1 where x is less, else 0.
fn is_less(x: i32, y: i32) -> u32
    ensures { result ≡ cond (lt_z x y) 1 0 }
{
    u32::from(x < y)
}

// What a bit adds to a metric: the gain for 0, and its negation for 1.
pub fn sign_of(bit: u64, gain: i32) -> i32
    requires { nat_abs gain ≤ 2 ^ 20 }
    ensures { result ≡ signed bit gain }
{
    if bit == 0 { gain } else { 0 - gain }
}

// A bit as a signed number.
pub fn tie_of(bit: u64) -> i32
    requires { bit < 2 }
    ensures { result ≡ pos bit }
{
    bit as i32
}

// The only branch of a state: added.
pub fn alone(near: i32, sign: i32, counts: Counts) -> Choice
    requires { AloneFits near sign counts }
    ensures { AloneTaken near sign counts result }
{
    Choice {
        metric: sign + near,
        second: 0,
        counts: Counts {
            additions: counts.additions + 1,
            comparisons: counts.comparisons,
        },
    }
}

// Two branches of a state with different bits: each is added, and the second compared with the first. It is taken where it is
// greater, or where it is equal and its bit is 0: the tie, the first one's bit, is 1.
pub fn choose(near: i32, far: i32, sign: i32, tie: i32, counts: Counts) -> Choice
    requires { ChoiceFits near far sign tie counts }
    ensures { Chosen near far sign tie counts result }
{
    let first = sign + near;
    let one = counts.additions + 1;
    let second = far - sign;
    let two = one + 1;
    let taken = is_less(first, second + tie);
    let compared = counts.comparisons + 1;
    Choice {
        metric: either(taken, first, second),
        second: taken,
        counts: Counts {
            additions: two,
            comparisons: compared,
        },
    }
}
