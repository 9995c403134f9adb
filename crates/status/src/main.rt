// The program: it carries out the work files that its arguments name.
#![tactic(auto)]

use std::process::ExitCode;
use work::running::*;

const USAGE: &str = "usage: status FILE..    carries out work files; - stands for standard input
       status --help    says what a work file holds";

const HELP: &str = "status FILE..

Carries out work files, one command to a line. Every line of every file is looked at first: where some line is no
command, each such line is named on standard error, nothing is carried out, and the status is 1.

  inspect OCTETS [LABEL]    reads a revocation list by itself, and prints what it holds or where it is refused

OCTETS is the path of a file, or hex: and hex digits. An empty line is passed over, and a line that begins with #.

  # two lists to look at
  inspect lists/ca.crl
  inspect hex:3003020101 tiny
";

fn run(rt: &HostRuntime) -> Result<(), Halt> {
    let words = arguments(rt)?;
    match words.first().map(|word| word.as_str()) {
        None => {
            eprintln!(rt; "{USAGE}")?;
            Err(Halt::Faulty)
        }
        Some("--help") => {
            print!(rt; "{HELP}")?;
            Ok(())
        }
        Some(_) => run_files(rt, &words),
    }
}

// What is wrong with a file has been named by then, so the end says no more than its status, in
// one expression in each program.
fn main(rt: HostRuntime) -> ExitCode {
    run(&rt).map_or(ExitCode::FAILURE, |()| ExitCode::SUCCESS)
}
