// How a run ends: its exit status, and one line of words on standard error.
ghost use Rattle.std.specs.Prelude.{◌≡◌, pos};
ghost use Rattle.programs.specs.Ending.{status_of};

use crate::writer::Sent;
use plates::Refusal;
use std::io::{Error, Write};

// All lines of a listing were taken, so many; or the one line of a refused sheet was; or standard output did not take all.
#[derive(Clone, Copy)]
pub enum Ending {
    Listed(Sent),
    Refused(Refusal, Sent),
    Unwritten,
}

// Words on standard error. Where that takes nothing there is nobody to tell.
fn say<E: Write>(errors: &mut E, words: &[u8]) {
    let _ = errors.write_all(words);
}

// A number on standard error, after its name.
fn say_number<E: Write>(errors: &mut E, name: &[u8], number: u64) {
    say(errors, name);
    let _ = write!(errors, "{number}");
}

// The place of a refusal: a row, a depth, or a line and its field, and nothing for a refusal that has none.
fn say_place<E: Write>(errors: &mut E, refusal: Refusal) {
    match refusal {
        Refusal::RowBeyond(row) => say_number(errors, b"row ", row as u64),
        Refusal::TooWide(depth) => say_number(errors, b"depth ", depth as u64),
        Refusal::SheetLine(line) => say_number(errors, b"line ", line as u64),
        Refusal::AlistFault(line) => say_alist_place(errors, line as u64),
        Refusal::FirstField(line) => say_field(errors, line, 1),
        Refusal::FieldCount(line, field) => say_field(errors, line, field),
        Refusal::FieldValue(line, field) => say_field(errors, line, field),
        Refusal::RowField(line, field) => say_field(errors, line, field),
        _ => return,
    }
    say(errors, b": ");
}

// A line of an alist text, or that there was no row to write.
fn say_alist_place<E: Write>(errors: &mut E, line: u64) {
    if line == 0 {
        say(errors, b"no parity checks");
        return;
    }
    say_number(errors, b"line ", line);
}

// A line and a field of it.
fn say_field<E: Write>(errors: &mut E, line: usize, field: usize) {
    say_number(errors, b"line ", line as u64);
    say_number(errors, b", field ", field as u64);
}

// A refusal in words. This is the one table of them; docs/REFUSALS.md has each with its conditions.
fn say_words<E: Write>(errors: &mut E, refusal: Refusal) {
    match refusal {
        Refusal::Length => say(errors, b"length is not 1 to 64"),
        Refusal::TooManyRows => say(errors, b"more than 64 rows"),
        Refusal::RowBeyond(_) => say(errors, b"a row has a one beyond its length"),
        Refusal::TooWide(_) => say(errors, b"plate too wide"),
        Refusal::MetricRoom => say(
            errors,
            b"working room too short: the plate is wider than the program has room for",
        ),
        Refusal::SheetLine(_) => say(errors, b"line missing or not ended"),
        Refusal::InputTooLong => say(errors, b"input over 32,768 bytes"),
        Refusal::AlistFault(_) => say(errors, b"alist fault"),
        Refusal::FirstField(_) => say(errors, b"first field unknown or out of its turn"),
        Refusal::FieldCount(_, _) => say(errors, b"wrong number of fields"),
        Refusal::FieldValue(_, _) => say(errors, b"bad number, letter or order"),
        Refusal::RowField(_, _) => say(errors, b"row or mask of wrong length or character"),
        Refusal::WholeSpace => say(errors, b"k is 64"),
        Refusal::MaskBeyond => say(errors, b"mask has a one beyond its length"),
        _ => say(errors, b"refused"),
    }
}

// A refusal in words, after the program's name and its place.
fn say_refusal<E: Write>(errors: &mut E, name: &[u8], refusal: Refusal) {
    say(errors, name);
    say_place(errors, refusal);
    say_words(errors, refusal);
    say_number(errors, b" (refusal ", plates::refusal_number(refusal));
    say(errors, b")\n");
}

// What failed, as the caller names it, and why. No reason is known where not all was handed over to begin with.
fn say_fault<E: Write>(errors: &mut E, what: &[u8], reason: Option<Error>) {
    say(errors, what);
    match reason {
        Some(error) => say_reason(errors, error),
        None => say(errors, b": not all was written\n"),
    }
}

// Why a call of the system failed.
fn say_reason<E: Write>(errors: &mut E, reason: Error) {
    let _ = writeln!(errors, ": {reason}");
}

// The exit status of a run, once its words are said: `fault` is why standard output did not take all, if it did not.
pub fn close<E: Write>(
    ending: Ending,
    errors: &mut E,
    name: &[u8],
    output: &[u8],
    fault: Option<Error>,
) -> i32
    ensures { result ≡ status_of ending }
{
    match ending {
        Ending::Listed(_) => 0,
        Ending::Refused(refusal, _) => {
            say_refusal(errors, name, refusal);
            1
        }
        Ending::Unwritten => {
            say_fault(errors, output, fault);
            2
        }
    }
}

// The exit status where a call of the system failed, whose reason is said after what it was about.
pub fn fault<E: Write>(errors: &mut E, what: &[u8], reason: Option<Error>) -> i32
    ensures { result ≡ pos 2 }
{
    say_fault(errors, what, reason);
    2
}

// The exit status where a file cannot be read, whose name and reason are said.
pub fn file_fault<E: Write>(errors: &mut E, name: &[u8], file: &[u8], reason: Option<Error>) -> i32
    ensures { result ≡ pos 2 }
{
    say(errors, name);
    fault(errors, file, reason)
}

// The exit status where the program was not started as it is to be.
pub fn usage<E: Write>(errors: &mut E, words: &[u8]) -> i32
    ensures { result ≡ pos 2 }
{
    say(errors, words);
    2
}
