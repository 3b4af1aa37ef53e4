// The verbs of yendrufal: `yendrufal VERB FILE`. A verb is a case of `Verb`, its name in `verb_of`, and what it prints in `print_verb`; the verb of two files,
// same, is `comparing`.
ghost use Rattle.programs.specs.Ending.{IsStatus};
ghost use Rattle.programs.specs.Input.{StandsFor};

use crate::endings::Ending;
use crate::writer::{Checks, Output, Text};
use crate::{checks, comparing, endings, listing, outlining, started, streams, weighed};
use std::env::Env;
use std::io::{Error, ErrorKind, Read, Write};
use std::rt::Files;
use std::{fs, io, str};

// What is asked for of one file.
#[derive(Clone, Copy)]
enum Verb {
    List,
    Sheet,
    Dual,
    Weights,
    Alist,
    FromAlist,
}

// Whether a name is a minus, which stands for standard input.
pub fn is_minus(name: &[u8]) -> bool {
    matches!(name, b"-")
}

// The verb of a name, if it is one.
fn verb_of(name: &[u8]) -> Option<Verb> {
    match name {
        b"list" => Some(Verb::List),
        b"sheet" => Some(Verb::Sheet),
        b"dual" => Some(Verb::Dual),
        b"weights" => Some(Verb::Weights),
        b"alist" => Some(Verb::Alist),
        b"from-alist" => Some(Verb::FromAlist),
        _ => None,
    }
}

// Prints what a verb says of what was read, of which `ended` says whether it is all of the input.
fn print_verb<W: Write>(output: &mut Output<W>, verb: Verb, input: &[u8], ended: bool) -> Ending
    requires { StandsFor ended input.now }
{
    match verb {
        Verb::List => listing::print_listing(output, input, ended),
        Verb::Sheet => outlining::print_text(output, Text::Sheet, input),
        Verb::Dual => outlining::print_text(output, Text::Dual, input),
        Verb::Weights => weighed::print_every(output, input),
        Verb::Alist => checks::print_checks(output, Checks::Alist, input),
        Verb::FromAlist => checks::print_checks(output, Checks::FromAlist, input),
    }
}

// Runs a verb on what a reader gives, as far as one byte beyond the most that a sheet or an alist text may have.
fn run_on<R: Read, W: Write + Drop, E: Write>(
    verb: Verb,
    from: &mut R,
    name: &[u8],
    to: W,
    errors: &mut E,
) -> i32
    ensures { IsStatus result }
{
    let mut input = [0u8; 32769];
    let got = match streams::read_all(from, &mut input) {
        Ok(got) => got,
        Err(failed) => return endings::file_fault(
            errors,
            b"yendrufal: ",
            name,
            Some(failed.reason),
        ),
    };
    let size = got.size;
    let mut output = Output::new(to);
    let ending = print_verb(&mut output, verb, &input[..size], got.ended);
    endings::close(
        ending,
        errors,
        b"yendrufal: ",
        b"yendrufal: standard output",
        output.fault(),
    )
}

// Opens a file by its name, which std takes as text alone.
pub fn open<F: Files>(files: &F, name: &[u8]) -> io::Result<F::File> {
    match str::from_utf8(name) {
        Ok(path) => fs::open(files, path),
        Err(_) => Err(Error::new(ErrorKind::InvalidFilename, "File name is not UTF-8")),
    }
}

// Runs a verb on a file, or on standard input where its name is a minus.
fn run_file<F: Files, R: Read, W: Write + Drop, E: Write>(
    files: &F,
    verb: Verb,
    name: &[u8],
    from: &mut R,
    to: W,
    errors: &mut E,
) -> i32
    ensures { IsStatus result }
{
    if is_minus(name) {
        return run_on(verb, from, b"standard input", to, errors);
    }
    match open(files, name) {
        Ok(mut file) => run_on(verb, &mut file, name, to, errors),
        Err(reason) => endings::file_fault(errors, b"yendrufal: ", name, Some(reason)),
    }
}

// Runs a verb on the file that the second argument names.
fn run_verb<F: Env + Files, R: Read, W: Write + Drop, E: Write>(
    rt: &F,
    verb: Verb,
    from: &mut R,
    to: W,
    errors: &mut E,
) -> i32
    ensures { IsStatus result }
{
    let mut name = [0u8; 4096];
    match rt.arg(2, &mut name) {
        Ok(size) => run_file(rt, verb, &name[..size], from, to, errors),
        Err(_) => {
            let reason = Error::new(ErrorKind::InvalidFilename, "File name too long");
            endings::fault(errors, b"yendrufal: FILE", Some(reason))
        }
    }
}

// The exit status where the arguments are not a verb and its files.
pub fn usage<E: Write>(errors: &mut E) -> i32
    ensures { IsStatus result }
{
    endings::usage(
        errors,
        b"usage: yendrufal list|sheet|dual|weights|alist|from-alist FILE\n       yendrufal same FILE FILE\n",
    )
}

// The verb that the first argument names.
fn verb_given<R: Env>(rt: &R) -> Option<Verb> {
    let mut name = [0u8; 4096];
    match rt.arg(1, &mut name) {
        Ok(size) => verb_of(&name[..size]),
        Err(_) => None,
    }
}

// Whether the first argument names the verb of two files.
fn same_given<R: Env>(rt: &R) -> bool {
    let mut name = [0u8; 4096];
    match rt.arg(1, &mut name) {
        Ok(size) => matches!(&name[..size], b"same"),
        Err(_) => false,
    }
}

// Runs the verb that the first argument names, where two files follow it.
fn run_two<F: Env + Files, R: Read, W: Write + Drop, E: Write>(
    rt: &F,
    from: &mut R,
    to: W,
    errors: &mut E,
) -> i32
    ensures { IsStatus result }
{
    if same_given(rt) {
        return comparing::run(rt, from, to, errors);
    }
    usage(errors)
}

// Runs the verb that the first argument names, where a file follows it.
fn run_one<F: Env + Files, R: Read, W: Write + Drop, E: Write>(
    rt: &F,
    from: &mut R,
    to: W,
    errors: &mut E,
) -> i32
    ensures { IsStatus result }
{
    match verb_given(rt) {
        Some(verb) => run_verb(rt, verb, from, to, errors),
        None => usage(errors),
    }
}

// Runs the verb that the first argument names.
pub fn run<F: Env + Files, R: Read, W: Write + Drop, E: Write>(
    rt: &F,
    from: &mut R,
    to: W,
    errors: &mut E,
) -> i32
    ensures { IsStatus result }
{
    if !started::is_given(rt, 2) || started::is_given(rt, 4) {
        return usage(errors);
    }
    if started::is_given(rt, 3) {
        return run_two(rt, from, to, errors);
    }
    run_one(rt, from, to, errors)
}
