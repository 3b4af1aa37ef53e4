// The programs trellis, plate_weights and yendrufal. Each is a function that a crate of the program's name calls from its main: what it
// returns is the exit status. The program's arguments, its standard streams and its files come in as parameters, so that what is read
// and written is seen in each signature.
#![tactic(auto)]

ghost use Rattle.programs.specs.Ending.{IsStatus};

mod checks;
mod comparing;
mod endings;
mod listing;
mod outlining;
mod refusing;
mod started;
mod streams;
mod verbs;
mod weighed;
mod weighing;
mod writer;

use std::env::Env;
use std::io::{Read, Write};
use std::rt::Files;
use writer::Output;

// Reads a sheet from standard input and prints its listing. The input is read as far as one byte beyond the most that a sheet may have.
pub fn trellis_main<A: Env, R: Read, W: Write + Drop, E: Write>(
    rt: &A,
    from: &mut R,
    to: W,
    errors: &mut E,
) -> i32
    ensures { IsStatus result }
{
    if started::is_given(rt, 1) {
        return endings::usage(errors, b"usage: trellis < SHEET\n");
    }
    let mut input = [0u8; 32769];
    let got = match streams::read_all(from, &mut input) {
        Ok(got) => got,
        Err(failed) => return endings::fault(
            errors,
            b"trellis: standard input",
            Some(failed.reason),
        ),
    };
    let size = got.size;
    let mut output = Output::new(to);
    let ending = listing::print_listing(&mut output, &input[..size], got.ended);
    endings::close(
        ending,
        errors,
        b"trellis: ",
        b"trellis: standard output",
        output.fault(),
    )
}

// Reads a sheet from standard input and prints how many codewords of its plate have each weight. Its blocks are passed over.
pub fn plate_weights_main<A: Env, R: Read, W: Write + Drop, E: Write>(
    rt: &A,
    from: &mut R,
    to: W,
    errors: &mut E,
) -> i32
    ensures { IsStatus result }
{
    if started::is_given(rt, 1) {
        return endings::usage(errors, b"usage: plate_weights < SHEET\n");
    }
    let mut sheet = [0u8; 32769];
    let got = match streams::read_all(from, &mut sheet) {
        Ok(got) => got,
        Err(failed) => return endings::fault(
            errors,
            b"plate_weights: standard input",
            Some(failed.reason),
        ),
    };
    let size = got.size;
    let mut output = Output::new(to);
    let ending = weighing::print_input(&mut output, &sheet[..size]);
    endings::close(
        ending,
        errors,
        b"plate_weights: ",
        b"plate_weights: standard output",
        output.fault(),
    )
}

// Prints what a verb says of a file, which its arguments name.
pub fn yendrufal_main<A: Env + Files, R: Read, W: Write + Drop, E: Write>(
    rt: &A,
    from: &mut R,
    to: W,
    errors: &mut E,
) -> i32
    ensures { IsStatus result }
{
    verbs::run(rt, from, to, errors)
}
