// Judges the listings of branches on its standard input against the plate of n=3, H 111, whose words are 000, 110, 011 and 101, and
// prints a line for each. A listing begins with # and a line of words; seven numbers are lent where that line begins with 7, else 64. Where it
// begins with 5 the plate has a mask beyond its length, so that it is not prepared.
#![tactic(auto)]

ghost use Rattle.std.specs.Prelude.{◌≤◌, length, IfOk};

use judging::{Judged, Judgement};
use plates::{Kind, Prepared};
use std::io;
use std::io::{Read, Write};

// The plate, in its reply.
fn even_words() -> Prepared {
    let rows: [u64; 1] = [7];
    plates::prepare(3, Kind::H, &rows, 0)
}

// How many bytes stand before the first that is `stop`; all of them where none is.
fn upto(text: &[u8], stop: u8) -> usize
    ensures { result ≤ length text.now }
{
    text.iter().position(|x| *x == stop).unwrap_or(text.len())
}

// The text before the first `stop`.
fn head(text: &[u8], stop: u8) -> &[u8] {
    let end = upto(text, stop);
    &text[..end]
}

// The text after the first `stop`; nothing where there is none.
fn tail(text: &[u8], stop: u8) -> &[u8] {
    let end = upto(text, stop);
    if end < text.len() {
        let begin = end + 1;
        return &text[begin..];
    }
    &text[end..]
}

// A number with a tab before it.
fn field<W: Write>(to: &mut W, value: u64) -> io::Result<()> {
    write!(to, "\t{value}")
}

// Words and two numbers.
fn show_two<W: Write>(to: &mut W, words: &[u8], a: u64, b: u64) -> io::Result<()> {
    to.write_all(words)?;
    field(to, a)?;
    field(to, b)
}

// Words and a number.
fn show_one<W: Write>(to: &mut W, words: &[u8], a: u64) -> io::Result<()> {
    to.write_all(words)?;
    field(to, a)
}

// The surplus of states at depth 2 and of branches in section 2, the word that tells, or the refusal.
fn show<W: Write>(to: &mut W, judgement: Judgement) -> io::Result<()> {
    match judgement.verdict {
        Ok(Judged::Right) => show_two(to, b"\tright", judgement.states[2], judgement.branches[2]),
        Ok(Judged::SpelledWrongly(word)) => show_one(to, b"\tspelled wrongly", word),
        Ok(Judged::NotSpelled(word)) => show_one(to, b"\tnot spelled", word),
        Err(refusal) => show_two(
            to,
            b"\trefused",
            plates::refusal_number(refusal),
            plates::refusal_place(refusal) as u64,
        ),
    }
}

// Judges a listing, with 64 numbers lent.
fn judge<W: Write>(to: &mut W, listing: &[u8]) -> io::Result<()> {
    let prepared = even_words();
    let mut room = [0; 64];
    show(to, judging::judge(prepared.plate, listing, &mut room))
}

// Judges a listing, with 7 numbers lent.
fn judge_in_seven<W: Write>(to: &mut W, listing: &[u8]) -> io::Result<()> {
    let prepared = even_words();
    let mut room = [0; 7];
    show(to, judging::judge(prepared.plate, listing, &mut room))
}

// Judges a listing against a plate that is not prepared.
fn judge_unprepared<W: Write>(to: &mut W, listing: &[u8]) -> io::Result<()> {
    let prepared = even_words();
    let mut plate = prepared.plate;
    plate.mask = 8;
    let mut room = [0; 64];
    show(to, judging::judge(plate, listing, &mut room))
}

// A listing with its line of words: prints its line.
fn example<W: Write>(to: &mut W, words: &[u8], listing: &[u8]) -> io::Result<()> {
    if words.len() == 0 {
        return Ok(());
    }
    to.write_all(words)?;
    if words[0] == b'7' {
        judge_in_seven(to, listing)?;
    } else if words[0] == b'5' {
        judge_unprepared(to, listing)?;
    } else {
        judge(to, listing)?;
    }
    to.write_all(b"\n")
}

// Runs the example at a place of the text, and answers where the next one begins.
fn run_one<W: Write>(to: &mut W, text: &[u8], at: usize) -> io::Result<usize>
    requires { at ≤ length text.now }
    ensures { IfOk result (λ next. next ≤ length text.now) }
{
    let first = head(&text[at..], b'#');
    example(to, head(first, b'\n'), tail(first, b'\n'))?;
    let size = first.len();
    if text.len() - at <= size {
        return Ok(text.len());
    }
    Ok(at + size + 1)
}

// The examples of a text in turn, a hundred at most.
fn examples<W: Write>(to: &mut W, text: &[u8]) -> io::Result<()> {
    let mut at: usize = 0;
    for _ in 0..100 {
        at = run_one(&mut *to, text, at)?;
    }
    Ok(())
}

fn main(rt: HostRuntime) -> io::Result<()> {
    let mut text = Vec::new(rt.alloc());
    rt.stdin().take(4096).read_to_end(&mut text)?;
    examples(&mut rt.stdout(), &text)
}
