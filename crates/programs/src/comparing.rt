// The verb same: two inputs, and one line about their words.
ghost use Rattle.std.specs.Prelude.{take, IfErr, IfOk, ◌≡◌};
ghost use Rattle.programs.specs.Ending.{IsStatus};
ghost use Rattle.programs.specs.Input.{IsPrefixLen};
ghost use Rattle.programs.specs.Same.{IsTold, SaysSame, outcome_status};

use crate::endings::Ending;
use crate::streams::{Failed, Got};
use crate::writer::{Output, Sent};
use crate::{endings, refusing, streams, verbs, writer};
use outlines::{Compared, Uncompared};
use std::env::Env;
use std::io::{Error, ErrorKind, Read, Write};
use std::rt::Files;

// How a run ends: with the line, which says same or does not; as the first or the second input's refusal does; or standard output did not take all.
#[derive(Clone, Copy)]
pub enum Outcome {
    Same(Sent),
    Different(Sent),
    First(Ending),
    Second(Ending),
    Unwritten,
}

// Hands over the line at the start of the room.
fn hand_over<W: Write>(
    output: &mut Output<W>,
    same: bool,
    first: &[u8],
    second: &[u8],
    room: &[u8],
    size: usize,
) -> Outcome
    requires { IsTold same first.now second.now (take size room.now) }
    ensures { SaysSame first.now second.now result }
{
    let handed = writer::hand_told(output, writer::none(), same, first, second, room, size);
    let Some(sent) = handed else {
        return Outcome::Unwritten;
    };
    if same {
        return Outcome::Same(sent);
    }
    Outcome::Different(sent)
}

// Prints what is told of two inputs, or the line of the first one's refusal, else of the second's. The room is enough for every line.
fn print_same<W: Write>(output: &mut Output<W>, first: &[u8], second: &[u8]) -> Outcome
    ensures { SaysSame first.now second.now result }
{
    let mut room = [0; 256];
    let compared = outlines::write_same(first, second, &mut room);
    match compared {
        Ok(Compared::Same(size)) => hand_over(output, true, first, second, &room, size),
        Ok(Compared::Different(size)) => hand_over(output, false, first, second, &room, size),
        Err(Uncompared::First(refusal)) => {
            Outcome::First(refusing::print_refused(output, refusal))
        }
        Err(Uncompared::Second(refusal)) => {
            Outcome::Second(refusing::print_refused(output, refusal))
        }
        Err(Uncompared::Room(_)) => Outcome::Unwritten,
    }
}

// The exit status of a run, once its words are said: which input is refused, and why. `fault` is why standard output did not take all, if it did not.
fn close<E: Write>(outcome: Outcome, errors: &mut E, fault: Option<Error>) -> i32
    ensures { result ≡ outcome_status outcome }
{
    match outcome {
        Outcome::Same(_) => 0,
        Outcome::Different(_) => 1,
        Outcome::First(ending) => endings::close(
            ending,
            errors,
            b"yendrufal: first sheet: ",
            b"yendrufal: standard output",
            fault,
        ),
        Outcome::Second(ending) => endings::close(
            ending,
            errors,
            b"yendrufal: second sheet: ",
            b"yendrufal: standard output",
            fault,
        ),
        Outcome::Unwritten => endings::fault(errors, b"yendrufal: standard output", fault),
    }
}

// Reads the file of a name, or standard input where it is a minus. A file is closed again: where standard input was closed its number is 0, and a
// minus for the other name must not find it there.
fn read_named<F: Files, R: Read>(
    files: &F,
    from: &mut R,
    name: &[u8],
    room: &mut [u8],
) -> Result<Got, Failed>
    ensures prefix_len { IfOk result (λ got. IsPrefixLen got.size room.new) }
    ensures failed { IfErr result (λ failed. IsPrefixLen failed.size room.new) }
{
    if verbs::is_minus(name) {
        return streams::read_all(from, room);
    }
    match verbs::open(files, name) {
        Ok(mut file) => streams::read_all(&mut file, room),
        Err(reason) => Err(Failed { size: 0, reason }),
    }
}

// The exit status where a file cannot be read.
fn name_fault<E: Write>(errors: &mut E, name: &[u8], reason: Error) -> i32
    ensures { IsStatus result }
{
    if verbs::is_minus(name) {
        return endings::fault(errors, b"yendrufal: standard input", Some(reason));
    }
    endings::file_fault(errors, b"yendrufal: ", name, Some(reason))
}

// Compares what was read with a file. It is read as far as one byte beyond the most that a sheet may have.
fn run_second<F: Files, R: Read, W: Write + Drop, E: Write>(
    files: &F,
    first: &[u8],
    name: &[u8],
    from: &mut R,
    to: W,
    errors: &mut E,
) -> i32
    ensures { IsStatus result }
{
    let mut input = [0u8; 32769];
    let size = match read_named(files, from, name, &mut input) {
        Ok(got) => got.size,
        Err(failed) => return name_fault(errors, name, failed.reason),
    };
    let mut output = Output::new(to);
    let outcome = print_same(&mut output, first, &input[..size]);
    close(outcome, errors, output.fault())
}

// Compares two files.
fn run_first<F: Files, R: Read, W: Write + Drop, E: Write>(
    files: &F,
    first: &[u8],
    second: &[u8],
    from: &mut R,
    to: W,
    errors: &mut E,
) -> i32
    ensures { IsStatus result }
{
    let mut input = [0u8; 32769];
    let size = match read_named(files, &mut *from, first, &mut input) {
        Ok(got) => got.size,
        Err(failed) => return name_fault(errors, first, failed.reason),
    };
    run_second(files, &input[..size], second, from, to, errors)
}

// The exit status where a file's name is too long.
fn name_too_long<E: Write>(errors: &mut E) -> i32
    ensures { IsStatus result }
{
    let reason = Error::new(ErrorKind::InvalidFilename, "File name too long");
    endings::fault(errors, b"yendrufal: FILE", Some(reason))
}

// Compares a file with the one that the third argument names. Standard input can be one of them only.
fn run_with<F: Env + Files, R: Read, W: Write + Drop, E: Write>(
    rt: &F,
    first: &[u8],
    from: &mut R,
    to: W,
    errors: &mut E,
) -> i32
    ensures { IsStatus result }
{
    let mut name = [0u8; 4096];
    match rt.arg(3, &mut name) {
        Ok(size) => {
            let second = &name[..size];
            if verbs::is_minus(first) && verbs::is_minus(second) {
                return verbs::usage(errors);
            }
            run_first(rt, first, second, from, to, errors)
        }
        Err(_) => name_too_long(errors),
    }
}

// Compares the files that the second and the third argument name.
pub fn run<F: Env + Files, R: Read, W: Write + Drop, E: Write>(
    rt: &F,
    from: &mut R,
    to: W,
    errors: &mut E,
) -> i32
    ensures { IsStatus result }
{
    let mut name = [0u8; 4096];
    match rt.arg(2, &mut name) {
        Ok(size) => run_with(rt, &name[..size], from, to, errors),
        Err(_) => name_too_long(errors),
    }
}
