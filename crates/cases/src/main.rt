// Runs work files whose output is known octet by octet.
#![tactic(auto)]

use std::process::ExitCode;
use work::running::*;

fn run(rt: &HostRuntime) -> Result<(), Halt> {
    run_files(rt, &arguments(rt)?)
}

// What is wrong with a file has been named by then, so the end says no more than its status, in
// one expression in each program.
fn main(rt: HostRuntime) -> ExitCode {
    run(&rt).map_or(ExitCode::FAILURE, |()| ExitCode::SUCCESS)
}
