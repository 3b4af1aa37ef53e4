// The mask line, which may stand right after the cover and is read as a row is.
ghost use Rattle.std.specs.Prelude.{◌+◌, ◌≤◌, length, ◌≡◌};
ghost use Rattle.sheets.specs.Text.{line_feed, fields, fields_from, lines_from};
ghost use Rattle.sheets.specs.Readers.{Until};
ghost use Rattle.sheets.specs.Masks.{mask_by, mask_of, mask_front};

use crate::Order;
use crate::line::{Fault, row_rest};
use crate::scan::until;
use crate::word::{Word, read_word};

// The fields after mask, which ends at a; another word makes no mask line.
fn mask_by(word: Word, line: &[u8], a: usize, n: usize, order: Order) -> Result<Option<u64>, Fault>
    requires a_in_bounds { a ≤ length line.now }
    requires n_bound { n ≤ 64 }
    ensures { result ≡ mask_by n order word (fields_from line.now (a + 1)) }
{
    let Word::Mask = word else {
        return Ok(None);
    };
    let row = row_rest(line, a, n, order)?;
    Ok(Some(row))
}

// A whole line after the cover, as a mask line.
fn read_mask(line: &[u8], n: usize, order: Order) -> Result<Option<u64>, Fault>
    requires { n ≤ 64 }
    ensures { result ≡ mask_of n order (fields line.now) }
{
    let a = until(line, 0, b'\t');
    let word = read_word(&line[..a]);
    mask_by(word, line, a, n, order)
}

// The line from `at` to `end`, which is none where `end` is the end of the input.
pub fn mask_between(
    input: &[u8],
    at: usize,
    end: usize,
    n: usize,
    order: Order,
) -> Result<Option<u64>, Fault>
    requires at_in_bounds { at ≤ length input.now }
    requires until { Until line_feed input.now at end }
    requires n_bound { n ≤ 64 }
    ensures { result ≡ mask_front n order (lines_from input.now at) }
{
    if end == input.len() {
        return Ok(None);
    }
    read_mask(&input[at..end], n, order)
}
