// The cover line.
ghost use Rattle.std.specs.Prelude.{◌+◌, ◌≤◌, length, ◌≡◌};
ghost use Rattle.sheets.specs.Text.{fields, fields_from};
ghost use Rattle.sheets.specs.Covers.{kind_of, order_of, cover_fields, cover_rest, cover_by, cover_of};

use crate::Order;
use crate::line::Fault;
use crate::number::read_number;
use crate::scan::until;
use crate::word::{Word, is_text, read_word};
use plates::Kind;

// What a cover says.
#[derive(Clone, Copy)]
pub struct Cover {
    pub n: usize,
    pub kind: Kind,
    pub order: Order,
}

// G or H.
fn read_kind(f: &[u8]) -> Option<Kind>
    ensures { result ≡ kind_of f.now }
{
    if is_text(f, b"G") {
        return Some(Kind::G);
    }
    if is_text(f, b"H") {
        return Some(Kind::H);
    }
    None
}

// First or last.
fn read_order(f: &[u8]) -> Option<Order>
    ensures { result ≡ order_of f.now }
{
    if is_text(f, b"first") {
        return Some(Order::First);
    }
    if is_text(f, b"last") {
        return Some(Order::Last);
    }
    None
}

// The three fields after the word: the first that is bad, or the cover.
fn cover_fields(f: &[u8], g: &[u8], h: &[u8]) -> Result<Cover, Fault>
    ensures { result ≡ cover_fields f.now g.now h.now }
{
    let Some(n) = read_number(f, 3) else {
        return Err(Fault::Value(2));
    };
    let Some(kind) = read_kind(g) else {
        return Err(Fault::Value(3));
    };
    let Some(order) = read_order(h) else {
        return Err(Fault::Value(4));
    };
    Ok(Cover { n, kind, order })
}

// The fields after the word, which ends at a.
fn cover_rest(line: &[u8], a: usize) -> Result<Cover, Fault>
    requires { a ≤ length line.now }
    ensures { result ≡ cover_rest (fields_from line.now (a + 1)) }
{
    if a == line.len() {
        return Err(Fault::Count(2));
    }
    let p = a + 1;
    let b = until(line, p, b'\t');
    if b == line.len() {
        return Err(Fault::Count(3));
    }
    let q = b + 1;
    let c = until(line, q, b'\t');
    if c == line.len() {
        return Err(Fault::Count(4));
    }
    let r = c + 1;
    let d = until(line, r, b'\t');
    if d != line.len() {
        return Err(Fault::Count(5));
    }
    cover_fields(&line[p..b], &line[q..c], &line[r..d])
}

// The fields after the first, which is the word and ends at a.
fn cover_by(word: Word, line: &[u8], a: usize) -> Result<Cover, Fault>
    requires { a ≤ length line.now }
    ensures { result ≡ cover_by word (fields_from line.now (a + 1)) }
{
    let Word::Cover = word else {
        return Err(Fault::Turn);
    };
    cover_rest(line, a)
}

// A whole cover line.
pub fn read_cover(line: &[u8]) -> Result<Cover, Fault>
    ensures { result ≡ cover_of (fields line.now) }
{
    let a = until(line, 0, b'\t');
    let word = read_word(&line[..a]);
    cover_by(word, line, a)
}
