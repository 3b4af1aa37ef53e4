// Prints what a verb says of a file: `yendrufal VERB FILE`.
#![tactic(auto)]

use std::process::ExitCode;

fn main(rt: HostRuntime) -> ExitCode {
    let status = programs::yendrufal_main(&rt, &mut rt.stdin(), rt.stdout(), &mut rt.stderr());
    ExitCode::from(status as u8)
}
