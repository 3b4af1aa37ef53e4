// The line of what is told of two plates, into a room.
ghost use Rattle.std.specs.Prelude.{◌++◌, ◌∷◌, ◌≤◌};
ghost use Rattle.listings.specs.Lines.{positions};
ghost use Rattle.listings.specs.Writing.{WritesLine};
ghost use Rattle.outlines.specs.Comparing.{told_line};
ghost use Rattle.outlines.specs.Putting.{Puts};
ghost use Rattle.words.specs.Letters.{bytes};

use crate::comparing::Told;
use crate::pieces;
use plates::Refusal;

// The line of a word, and whose it is, at the start of the room; its length.
fn put_word(n: usize, word: u64, whose: &[u8], room: &mut [u8]) -> usize
    ensures { Puts room.old 0 (bytes "other" ++ (9 ∷ (positions word 0 n ++ whose.now))) room.new result }
{
    let first = pieces::put(room, 0, b"other\t");
    let tab = pieces::put_positions(room, first, word, n);
    pieces::put(room, tab, whose)
}

// The line of what is told, at the start of the room; its length.
fn put_told(n: usize, told: Told, room: &mut [u8]) -> usize
    ensures { Puts room.old 0 (told_line n told) room.new result }
{
    match told {
        Told::Same => pieces::put(room, 0, b"same\n"),
        Told::Mirrored => pieces::put(room, 0, b"mirrored\n"),
        Told::Lengths => pieces::put(room, 0, b"other\n"),
        Told::First(word) => put_word(n, word, b"\tfirst\n", room),
        Told::Second(word) => put_word(n, word, b"\tsecond\n", room),
    }
}

// The line of what is told into the room, or refusal 11.
pub fn write_told(n: usize, told: Told, room: &mut [u8]) -> Result<usize, Refusal>
    requires { n ≤ 64 }
    ensures { WritesLine (told_line n told) room.old result room.new }
{
    let mut scratch = [0u8; 1];
    let size = put_told(n, told, &mut scratch);
    if room.len() < size {
        return Err(Refusal::LineRoom);
    }
    put_told(n, told, room);
    Ok(size)
}
