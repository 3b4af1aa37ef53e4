// The words of a sheet, by length and letters.
ghost use Rattle.std.specs.Prelude.{[], ◌∷◌, ◌≡◌};
ghost use Rattle.sheets.specs.Words.{same, word_of};

// Which of the six words a line's first field is.
#[derive(Clone, Copy)]
pub enum Word {
    Cover,
    Mask,
    Row,
    Block,
    Heard,
    End,
    Other,
}

// The word of a first field, by its length and its letters.
pub fn read_word(f: &[u8]) -> Word
    ensures { result ≡ word_of f.now }
{
    match f {
        [b'r', b'o', b'w'] => Word::Row,
        [b'e', b'n', b'd'] => Word::End,
        [b'm', b'a', b's', b'k'] => Word::Mask,
        [b'c', b'o', b'v', b'e', b'r'] => Word::Cover,
        [b'b', b'l', b'o', b'c', b'k'] => Word::Block,
        [b'h', b'e', b'a', b'r', b'd'] => Word::Heard,
        _ => Word::Other,
    }
}

// Whether two texts are the same.
pub fn is_text(f: &[u8], g: &[u8]) -> bool
    ensures { result ≡ same f.now g.now }
{
    f == g
}
