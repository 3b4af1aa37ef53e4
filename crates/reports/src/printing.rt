// A word as it is printed in the cover's order.
ghost use Rattle.std.specs.Prelude.{◌≡◌, ◌≤◌};
ghost use Rattle.reports.specs.Printed.{printed_as};

use sheets::Order;

// The word that is written for a word of n positions.
pub fn printed_word(order: Order, n: usize, word: u64) -> u64
    requires { n ≤ 64 }
    ensures { result ≡ printed_as order n word }
{
    match order {
        Order::First => word,
        Order::Last => words::reversed(n, word),
    }
}
