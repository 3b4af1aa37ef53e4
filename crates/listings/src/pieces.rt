// The pieces of a line, each put before a place of the array: from the last byte to the first, since a number's digits come that way.
// Where a piece does not fit before its place nothing is promised.
ghost use Rattle.std.specs.Prelude.{◌≡◌, cond, ◌∷◌, [], map, ◌+◌, max, nat_abs};
ghost use Rattle.words.specs.Word.{bit};
ghost use Rattle.listings.specs.Building.{Prepends};
ghost use Rattle.listings.specs.Decimal.{decimal, signed_decimal};
ghost use Rattle.listings.specs.Lines.{largest, less, following, names_field, positions};

// The array that a line is built in.
pub type Line = [u8; 256];

// One byte before a place.
pub fn prepend_byte(line: &mut Line, end: usize, byte: u8) -> usize
    ensures { Prepends line.old end (byte ∷ []) line.new result }
{
    if end == 0 {
        return 0;
    }
    if end > 256 {
        return end;
    }
    line[end - 1] = byte;
    end - 1
}

// The line feed, at the end of the array.
pub fn line_feed(line: &mut Line) -> usize
    ensures { Prepends line.old 256 (10 ∷ []) line.new result }
{
    prepend_byte(line, 256, 10)
}

// A number's digits before a place. (A `while`: it takes digits off the number and counts no index.)
pub fn prepend_number(line: &mut Line, end: usize, value: u64) -> usize
    ensures { Prepends line.old end (decimal value) line.new result }
{
    let mut at = end;
    let mut rest = value;
    while rest >= 10 {
        at = prepend_byte(line, at, 48 + (rest % 10) as u8);
        rest /= 10;
    }
    prepend_byte(line, at, 48 + rest as u8)
}

// A tab and a number before a place.
pub fn prepend_field(line: &mut Line, end: usize, value: u64) -> usize
    ensures { Prepends line.old end (9 ∷ decimal value) line.new result }
{
    let at = prepend_number(line, end, value);
    prepend_byte(line, at, 9)
}

// Whether the place of a refusal is a line and a field.
pub fn names_field(number: u64) -> bool
    ensures { result ≡ names_field number }
{
    matches!(number, 10 | 17..=20)
}

// The letters of a name before a place.
pub fn prepend_name(line: &mut Line, end: usize, name: &[u8]) -> usize
    ensures { Prepends line.old end name.now line.new result }
{
    if end > 256 || end < name.len() {
        return end;
    }
    let at = end - name.len();
    line[at..end].copy_from_slice(name);
    at
}

// The character of a position, 0 or 1.
pub fn character(word: u64, position: usize) -> u8
    ensures { result ≡ 48 + bit word position }
{
    48 + words::bit_at(word, position) as u8
}

// A tab and the first n positions of a word before a place, position 0 at the left.
pub fn prepend_positions(line: &mut Line, end: usize, word: u64, n: usize) -> usize
    ensures { Prepends line.old end (9 ∷ positions word 0 n) line.new result }
{
    let mut at = end;
    for i in (0..n).rev() {
        at = prepend_byte(line, at, character(word, i));
    }
    prepend_byte(line, at, 9)
}

// A tab and a number before a place, with a minus where it is told.
fn prepend_with_sign(line: &mut Line, end: usize, minus: bool, size: u64) -> usize
    ensures { Prepends line.old end (9 ∷ cond minus (45 ∷ decimal size) (decimal size)) line.new result }
{
    if minus {
        let digits = prepend_number(line, end, size);
        let sign = prepend_byte(line, digits, 45);
        return prepend_byte(line, sign, 9);
    }
    prepend_field(line, end, size)
}

// A tab and a number before a place, with a minus exactly when it is below 0.
pub fn prepend_signed(line: &mut Line, end: usize, metric: i32) -> usize
    ensures { Prepends line.old end (9 ∷ signed_decimal metric) line.new result }
{
    prepend_with_sign(line, end, metric < 0, metric.unsigned_abs() as u64)
}

// A tab and one number less another before a place, with a minus exactly when that is below 0.
pub fn prepend_less(line: &mut Line, end: usize, above: u64, below: u64) -> usize
    ensures { Prepends line.old end (9 ∷ less above below) line.new result }
{
    prepend_with_sign(line, end, above < below, above.abs_diff(below))
}

// The largest of some entries.
pub fn largest_entry(entries: &[u64]) -> u64
    ensures { result ≡ largest entries.now }
{
    let mut most: u64 = 0;
    for entry in entries {
        most = most.max(*entry);
    }
    most
}

// Entries as fields, and the line feed, at the end of the array.
pub fn prepend_entries(line: &mut Line, entries: &[u64]) -> usize
    ensures { Prepends line.old 256 (following (map decimal entries.now)) line.new result }
{
    let mut at = line_feed(line);
    for i in (0..entries.len()).rev() {
        at = prepend_field(line, at, entries[i]);
    }
    at
}
