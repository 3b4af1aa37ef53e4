// The text of a sheet put into a room piece by piece, each from a place on: bytes behind the room's end are dropped, so that the same functions
// also measure the text.
ghost use Rattle.std.specs.Prelude.{length, ◌∷◌, [], ◌≡◌, ◌+◌, ◌<◌};
ghost use Rattle.listings.specs.Decimal.{decimal};
ghost use Rattle.listings.specs.Lines.{line, positions};
ghost use Rattle.outlines.specs.Putting.{Puts};
ghost use Rattle.outlines.specs.SheetText.{cover_line, letter_of, mask_lines, row_line, row_lines, sheet_text};
ghost use Rattle.words.specs.Word.{bit};

use plates::Kind;

// One byte.
fn put_byte(room: &mut [u8], at: usize, byte: u8) -> usize
    ensures { Puts room.old at (byte ∷ []) room.new result }
{
    if at < room.len() {
        room[at] = byte;
    }
    at.saturating_add(1)
}

// Some bytes.
pub fn put(room: &mut [u8], at: usize, text: &[u8]) -> usize
    ensures { Puts room.old at text.now room.new result }
{
    let mut next = at;
    for byte in text {
        next = put_byte(room, next, *byte);
    }
    next
}

// The character of a digit.
fn character(digit: usize) -> u8
    requires { digit < 10 }
    ensures { result ≡ 48 + digit }
{
    48 + digit as u8
}

// A number below 100.
fn put_number(room: &mut [u8], at: usize, value: usize) -> usize
    requires { value < 100 }
    ensures { Puts room.old at (decimal value) room.new result }
{
    if value < 10 {
        return put_byte(room, at, character(value));
    }
    let next = put_byte(room, at, character(value / 10));
    put_byte(room, next, character(value % 10))
}

// The character of a position, 0 or 1.
fn bit_character(word: u64, position: usize) -> u8
    ensures { result ≡ 48 + bit word position }
{
    48 + words::bit_at(word, position) as u8
}

// The first n positions of a word, position 0 at the left.
pub fn put_positions(room: &mut [u8], at: usize, word: u64, n: usize) -> usize
    ensures { Puts room.old at (positions word 0 n) room.new result }
{
    let mut next = at;
    for i in 0..n {
        next = put_byte(room, next, bit_character(word, i));
    }
    next
}

// A line of a word: the line's name, and the word's first n positions.
fn put_line(room: &mut [u8], at: usize, name: &[u8], word: u64, n: usize) -> usize
    ensures { Puts room.old at (line name.now (positions word 0 n ∷ [])) room.new result }
{
    let tab = put(room, at, name);
    let first = put_byte(room, tab, 9);
    let end = put_positions(room, first, word, n);
    put_byte(room, end, 10)
}

// The letter of a kind of matrix.
fn letter_of(kind: Kind) -> u8
    ensures { result ≡ letter_of kind }
{
    match kind {
        Kind::G => 71,
        Kind::H => 72,
    }
}

// The cover of a matrix by position.
fn put_cover(room: &mut [u8], at: usize, kind: Kind, n: usize) -> usize
    requires { n < 100 }
    ensures { Puts room.old at (cover_line kind n) room.new result }
{
    let long = put(room, at, b"cover\t");
    let tab = put_number(room, long, n);
    let letter = put_byte(room, tab, 9);
    let order = put_byte(room, letter, letter_of(kind));
    put(room, order, b"\tfirst\n")
}

// The line of a mask, where it is not zero.
fn put_mask(room: &mut [u8], at: usize, mask: u64, n: usize) -> usize
    ensures { Puts room.old at (mask_lines n mask) room.new result }
{
    if mask == 0 {
        return at;
    }
    put_line(room, at, b"mask", mask, n)
}

// The line of a row.
fn put_row(room: &mut [u8], at: usize, word: u64, n: usize) -> usize
    ensures { Puts room.old at (row_line n word) room.new result }
{
    put_line(room, at, b"row", word, n)
}

// The lines of some rows.
fn put_rows(room: &mut [u8], at: usize, rows: &[u64], n: usize) -> usize
    ensures { Puts room.old at (row_lines n rows.now) room.new result }
{
    let mut next = at;
    for row in rows {
        next = put_row(room, next, *row, n);
    }
    next
}

// The sheet of a matrix of length n and a mask, at the start of the room; its length.
pub fn put_text(kind: Kind, n: usize, mask: u64, rows: &[u64], room: &mut [u8]) -> usize
    requires { n < 100 }
    ensures { Puts room.old 0 (sheet_text kind n mask rows.now) room.new result }
{
    let head = put_cover(room, 0, kind, n);
    let first = put_mask(room, head, mask, n);
    let last = put_rows(room, first, rows, n);
    put(room, last, b"end\n")
}
