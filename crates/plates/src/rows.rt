// Row operations on the working table of 64 words.
ghost use Rattle.std.specs.Prelude.{◌≡◌, ◌+◌, ◌<◌, ◌≤◌, length};
ghost use Rattle.words.specs.Sum.{swap_rows, taken};
ghost use Rattle.plates.specs.Working.{FirstWhere, Gained, Odd, gain_row};

// Rows i and j are exchanged.
pub fn swap_rows(table: &mut [u64; 64], i: usize, j: usize)
    requires i_bound { i < 64 }
    requires j_bound { j < 64 }
    ensures { table.new ≡ swap_rows table.old i j }
{
    table.swap(i, j);
}

// The word where the digit is not 0, and the zero word where it is: a choice of numbers, which is no branch.
fn word_taken(digit: u64, word: u64) -> u64
    ensures { result ≡ taken digit word }
{
    if digit == 0 {
        return 0;
    }
    word
}

// Row i gains row j where the digit is not 0 (a number, so that the compiled code has no branch).
pub fn gain_row(table: &mut [u64; 64], i: usize, j: usize, digit: u64)
    requires i_bound { i < 64 }
    requires j_bound { j < 64 }
    ensures { table.new ≡ gain_row table.old i j digit }
{
    let row = word_taken(digit, table[j]);
    table[i] = table[i] ^ row;
}

// The first row from `from` on, before `to`, with an odd number of ones in common with the check.
pub fn first_odd(table: &[u64; 64], from: usize, to: usize, check: u64) -> Option<usize>
    requires from_le_to { from ≤ to }
    requires to_bound { to ≤ 64 }
    ensures { FirstWhere table.now (Odd check) from to result }
{
    for i in from..to {
        if words::parity_with(check, table[i]) == 1 {
            return Some(i);
        }
    }
    None
}

// Each row after the row `odd`, before `to`, gains that row if it has an odd number of ones in common with the check.
pub fn even_rows(table: &mut [u64; 64], odd: usize, to: usize, check: u64)
    requires odd_lt_to { odd < to }
    requires to_bound { to ≤ 64 }
    ensures { Gained table.old table.new (Odd check) (odd + 1) to odd }
{
    for i in odd + 1..to {
        let parity = words::parity_with(check, table[i]);
        gain_row(table, i, odd, parity);
    }
}
