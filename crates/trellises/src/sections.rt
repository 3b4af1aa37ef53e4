// The section of plate rows at a depth: its numbers, found in one pass over the rows.
ghost use Rattle.std.specs.Prelude.{cond, ◌||◌, ◌≡◌};
ghost use Rattle.trellises.specs.SectionOf.{HasRoom, held, section_of, with_row};

use crate::Section;

// The section of some rows with one more row before them, whose head is lower than theirs.
fn with_row(section: Section, row: u64, t: usize) -> Section
    requires { HasRoom t section }
    ensures { result ≡ held (with_row t row section) }
{
    let first = words::first_one(row);
    if t < first {
        return section;
    }
    let last = words::last_one(row);
    if last < t {
        return section;
    }
    let column = (section.column << 1) | words::bit_at(row, t);
    Section {
        live: section.live + (first < t) as usize,
        begins: (first == t) | section.begins,
        ends: (last == t) | section.ends,
        ending: if last == t { 0 } else { section.ending + 1 },
        column,
    }
}

// The section of rows at depth t. Rows in order of heads give a section of their trellis; those that are not active may be left out.
pub fn section_of(rows: &[u64], t: usize) -> Section
    ensures { result ≡ held (section_of rows.now t) }
{
    let mut section = Section {
        live: 0,
        begins: false,
        ends: false,
        ending: 0,
        column: 0,
    };
    if 64 <= t {
        return section;
    }
    for j in (0..rows.len()).rev() {
        section = with_row(section, rows[j], t);
    }
    section
}
