// The lines of a listing, read one after the other: how many there are, and the first that is faulty or repeats a branch.
ghost use Rattle.std.specs.Prelude.{◌≤◌, length, ◌≡◌};
ghost use Rattle.sheets.specs.Listed.{entries};
ghost use Rattle.judging.specs.Listing.{branch_in, clash, clashes, faulty, faulty_at, repeats_at};
ghost use Rattle.judging.specs.Working.{FirstFound};

use sheets::listed::{Branch, read_entry};

// The branch of a line, all 0 where it is bad.
pub fn branch_in(line: Option<Branch>) -> Branch
    ensures { result ≡ branch_in line }
{
    match line {
        Some(branch) => branch,
        None => Branch {
            depth: 0,
            from: 0,
            bit: 0,
            to: 0,
        },
    }
}

// How many lines there are. (A `while`, here and below: each turn begins where the line before it was found to end.)
pub fn count_lines(text: &[u8], n: usize) -> usize
    ensures { result ≡ length (entries n text.now) }
{
    let mut i: usize = 0;
    let mut at: usize = 0;
    while at < text.len() {
        let entry = read_entry(text, at, n);
        at = entry.next;
        i += 1;
    }
    i
}

// Whether a line is bad, or of a lower depth than the line before it.
fn is_faulty(line: Option<Branch>, before: usize) -> bool
    ensures { result ≡ faulty line before }
{
    match line {
        Some(branch) => branch.depth < before,
        None => true,
    }
}

// The first faulty line, from 0.
pub fn first_faulty(text: &[u8], n: usize) -> Option<usize>
    ensures { FirstFound (length (entries n text.now)) (faulty_at (entries n text.now)) result }
{
    let mut i: usize = 0;
    let mut at: usize = 0;
    let mut before: usize = 0;
    while at < text.len() {
        let entry = read_entry(text, at, n);
        let line = entry.line;
        if is_faulty(line, before) {
            return Some(i);
        }
        let branch = branch_in(line);
        before = branch.depth;
        at = entry.next;
        i += 1;
    }
    None
}

// Whether two branches leave one state of one depth with one bit.
fn clashing(a: Branch, b: Branch) -> bool
    ensures { result ≡ clash a b }
{
    a.depth == b.depth && a.from == b.from && a.bit == b.bit
}

// Whether one of the first lines, as many as asked, clashes with a branch.
fn clashes_among(text: &[u8], n: usize, first: usize, branch: Branch) -> bool
    requires { first ≤ length (entries n text.now) }
    ensures { result ≡ clashes (entries n text.now) first branch }
{
    let mut at: usize = 0;
    for _left in (0..first).rev() {
        let entry = read_entry(text, at, n);
        let line = entry.line;
        let other = branch_in(line);
        if clashing(other, branch) {
            return true;
        }
        at = entry.next;
    }
    false
}

// The first line that repeats one before it, from 0.
pub fn first_repeating(text: &[u8], n: usize) -> Option<usize>
    ensures { FirstFound (length (entries n text.now)) (repeats_at (entries n text.now)) result }
{
    let mut i: usize = 0;
    let mut at: usize = 0;
    while at < text.len() {
        let entry = read_entry(text, at, n);
        let line = entry.line;
        let branch = branch_in(line);
        if clashes_among(text, n, i, branch) {
            return Some(i);
        }
        at = entry.next;
        i += 1;
    }
    None
}
