// Prints the listing of the sheet that stands on standard input.
#![tactic(auto)]

use std::process::ExitCode;

fn main(rt: HostRuntime) -> ExitCode {
    let status = programs::trellis_main(&rt, &mut rt.stdin(), rt.stdout(), &mut rt.stderr());
    ExitCode::from(status as u8)
}
