// Bytes: where a line or a field ends, and characters of a range.
ghost use Rattle.std.specs.Prelude.{◌≤◌, leb, length, ◌&&◌, ◌≡◌};
ghost use Rattle.sheets.specs.Readers.{Until};

// The first place from `at` on where `stop` stands, or the length where there is none.
pub fn until(text: &[u8], at: usize, stop: u8) -> usize
    requires { at ≤ length text.now }
    ensures { Until stop text.now at result }
{
    for i in at..text.len() {
        if text[i] == stop {
            return i;
        }
    }
    text.len()
}

// Whether a byte lies between two others, both included.
pub fn within(x: u8, low: u8, high: u8) -> bool
    ensures { result ≡ (leb low x && leb x high) }
{
    low <= x && x <= high
}
