// A line of a supplier's listing of branches.
ghost use Rattle.std.specs.Prelude.{◌+◌, ◌≤◌, length, ◌≡◌};
ghost use Rattle.sheets.specs.Text.{fields, fields_from};
ghost use Rattle.sheets.specs.Listed.{branch_fields, branch_in, branch_of, branch_rest, entry_at};

use crate::number::read_number;
use crate::scan::until;
use crate::word::is_text;

// A branch: the section's depth, the state that it leaves, its bit, and the state that it leads to.
#[derive(Clone, Copy)]
pub struct Branch {
    pub depth: usize,
    pub from: usize,
    pub bit: usize,
    pub to: usize,
}

// A line, and where the next begins.
#[derive(Clone, Copy)]
pub struct Entry {
    pub line: Option<Branch>,
    pub next: usize,
}

// Four numbers in their ranges.
fn branch_in(branch: Branch, n: usize) -> Option<Branch>
    ensures { result ≡ branch_in n branch }
{
    if n <= branch.depth {
        return None;
    }
    if 1024 <= branch.from {
        return None;
    }
    if 2 <= branch.bit {
        return None;
    }
    if 1024 <= branch.to {
        return None;
    }
    Some(branch)
}

// The four fields after the word.
fn branch_fields(f: &[u8], g: &[u8], h: &[u8], k: &[u8], n: usize) -> Option<Branch>
    ensures { result ≡ branch_fields n f.now g.now h.now k.now }
{
    let Some(depth) = read_number(f, 4) else {
        return None;
    };
    let Some(from) = read_number(g, 4) else {
        return None;
    };
    let Some(bit) = read_number(h, 4) else {
        return None;
    };
    let Some(to) = read_number(k, 4) else {
        return None;
    };
    let branch = Branch {
        depth,
        from,
        bit,
        to,
    };
    branch_in(branch, n)
}

// The fields after the word, which ends at a.
fn branch_rest(line: &[u8], a: usize, n: usize) -> Option<Branch>
    requires { a ≤ length line.now }
    ensures { result ≡ branch_rest n (fields_from line.now (a + 1)) }
{
    if a == line.len() {
        return None;
    }
    let p = a + 1;
    let b = until(line, p, b'\t');
    if b == line.len() {
        return None;
    }
    let q = b + 1;
    let c = until(line, q, b'\t');
    if c == line.len() {
        return None;
    }
    let r = c + 1;
    let d = until(line, r, b'\t');
    if d == line.len() {
        return None;
    }
    let s = d + 1;
    let e = until(line, s, b'\t');
    if e != line.len() {
        return None;
    }
    branch_fields(&line[p..b], &line[q..c], &line[r..d], &line[s..e], n)
}

// A whole line.
fn read_branch(line: &[u8], n: usize) -> Option<Branch>
    ensures { result ≡ branch_of n (fields line.now) }
{
    let a = until(line, 0, b'\t');
    if is_text(&line[..a], b"branch") {
        return branch_rest(line, a, n);
    }
    None
}

// The line that begins at a place of a listing against a plate of length n, and where the next begins. A line that is missing or not
// ended is bad.
pub fn read_entry(text: &[u8], at: usize, n: usize) -> Entry
    ensures { result ≡ entry_at n text.now at }
{
    if text.len() < at {
        return Entry {
            line: None,
            next: at,
        };
    }
    let end = until(text, at, b'\n');
    let next = end + 1;
    if end == text.len() {
        return Entry { line: None, next };
    }
    let line = read_branch(&text[at..end], n);
    Entry { line, next }
}
