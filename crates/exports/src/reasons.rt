// How a reason crosses the interface: which it is, its position, its difference.
ghost use Rattle.std.specs.Prelude.{◌≡◌, ◌≤◌, length};
ghost use Rattle.exports.specs.Explaining.{ReasonPut, reason_difference, reason_number, reason_position};

use asking::Reason;

// Which reason: 0 for the word chosen, 1 for no codeword, 2 for one that scores less, 3 for one that ties and loses.
fn number_of(reason: Reason) -> u64
    ensures { result ≡ reason_number reason }
{
    match reason {
        Reason::Chosen => 0,
        Reason::NoCodeword(_) => 1,
        Reason::ScoresLess(_) => 2,
        Reason::TiesAndLoses(_) => 3,
    }
}

// The position of a reason that has one; 0 for the others.
fn position_of(reason: Reason) -> u64
    ensures { result ≡ reason_position reason }
{
    match reason {
        Reason::Chosen => 0,
        Reason::NoCodeword(position) => position as u64,
        Reason::ScoresLess(_) => 0,
        Reason::TiesAndLoses(position) => position as u64,
    }
}

// The difference of a reason that has one; 0 for the others.
fn difference_of(reason: Reason) -> i32
    ensures { result ≡ reason_difference reason }
{
    match reason {
        Reason::Chosen => 0,
        Reason::NoCodeword(_) => 0,
        Reason::ScoresLess(difference) => difference,
        Reason::TiesAndLoses(_) => 0,
    }
}

// A reason into its cells.
pub fn put_reason(reason: Reason, told: &mut [u64], difference: &mut [i32])
    requires { (1 ≤ length difference.old) × (2 ≤ length told.old) }
    ensures { ReasonPut reason told.old difference.old told.new difference.new }
{
    let apart = difference_of(reason);
    told[0] = number_of(reason);
    told[1] = position_of(reason);
    difference[0] = apart;
}
