// Carrying out a work file that has no faulty line: values in, text out.
ghost use Rattle.std.specs.Prelude.{◌≡◌, [], ◌∷◌, ◌++◌, IfOk, string_bytes};
ghost use Rattle.report.specs.Said.{said_text};
ghost use Rattle.work.specs.Answers.{inspect_text, command_text, all_text};

use crl::read::read_list;
use refusals::show::show;
use report::said::*;
use std::alloc::{AllocError, Global};
use std::fmt::Write;
use workfile::commands::Command;

// What is said of a list that is read by itself.
#[tactic(auto, using(crate::proofs::Sayings::shown_rest), unfolding(crate::specs::Answers::inspect_text))]
pub fn inspect<'a, 'o>(label: &'a str, octets: &'o [u8]) -> Said<'a, 'o>
    ensures { said_text result ≡ inspect_text label.now octets.now }
{
    match read_list(octets) {
        Ok(list) => Said::Inspected {
            label,
            length: octets.len(),
            list,
        },
        Err(refusal) => {
            let rest = show(refusal, octets, &[]);
            Said::Refused {
                verb: "inspect",
                label,
                refused: Refused { refusal, rest },
            }
        }
    }
}

// What is said of a command.
fn answer(command: &Command) -> Said<'_, '_>
    ensures { said_text result ++ (10 ∷ []) ≡ command_text command.now }
{
    match command {
        Command::Inspect { list, label } => inspect(label, list),
    }
}

// The text that a work file's commands print, in their order. It is made whole, so that it can be written at once.
pub fn carry_out(heap: Global, commands: &[Command]) -> Result<String, AllocError>
    ensures { IfOk result (λ s. string_bytes s ≡ all_text commands.now) }
{
    let mut out = String::new(heap);
    for command in commands {
        writeln!(out, "{}", answer(command))?;
    }
    Ok(out)
}
