// The words of a coset: what is left of a word once the rows of a plate are taken off it. What is left tells the coset, and has 0 at every head.
ghost use Rattle.std.specs.Prelude.{◌≡◌};
ghost use Rattle.decoding.specs.Cosets.{less_row, taken_off};

// A word without a row, where the word has a one at the row's first one.
fn less_row(row: u64, word: u64) -> u64
    ensures { result ≡ less_row row word }
{
    if words::bit_at(word, words::first_one(row)) == 0 {
        return word;
    }
    row ^ word
}

// What is left of a word once rows are taken off it by their first ones, from the first row to the last.
pub fn rest_of(rows: &[u64], word: u64) -> u64
    ensures { result ≡ taken_off rows.now word }
{
    let mut rest = word;
    for row in rows {
        rest = less_row(*row, rest);
    }
    rest
}
