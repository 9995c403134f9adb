// The whole of a work file, looked at before anything is carried out.
ghost use Rattle.std.specs.Prelude.{IfOk, OnOk};
ghost use Rattle.tokens.specs.Lines.{lines as lines_of};
ghost use Rattle.tokens.specs.Words.{words as words_of};
ghost use Rattle.workfile.specs.Files.{Adds, Found};
ghost use Rattle.workfile.specs.Messages.{flaw_text};

use crate::commands::*;
use crate::faults::*;
use std::alloc::AllocError;
use std::fmt;
use std::rt::Files;
use tokens::lines::Lines;

// A faulty line, counted from 1.
#[derive(Debug, Drop)]
pub struct Flaw {
    pub line: usize,
    pub fault: Fault,
}

impl fmt::Display for Flaw {
    ghost output = { λ f. flaw_text f.line f.fault };

    fn fmt<W: fmt::Write>(&self, f: &mut fmt::Formatter<W>) -> fmt::Result {
        write!(f, "line {}: {}", self.line, self.fault)
    }
}

// The commands of a work file and its faulty lines, each in the order of the file.
#[derive(Debug, Drop)]
pub struct Work {
    pub commands: Vec<Command>,
    pub flaws: Vec<Flaw>,
}

impl Work {
    // One line more, the one of this number.
    fn add<R: Files + AllocGlobal>(
        &mut self,
        rt: &R,
        number: usize,
        line: &[u8],
    ) -> Result<(), AllocError>
        ensures { OnOk result (Adds number (words_of line.now) self.old.commands.items self.old.flaws.items self.new.commands.items self.new.flaws.items) }
    {
        match read_command(rt, line) {
            Ok(None) => {}
            Ok(Some(command)) => self.commands.push(command)?,
            Err(fault) => self.flaws.push(Flaw {
                line: number,
                fault,
            })?,
        }
        Ok(())
    }
}

// Reads a work file whole: every line is looked at, also behind a faulty one.
pub fn read_work<R: Files + AllocGlobal>(rt: &R, text: &[u8]) -> Result<Work, AllocError>
    ensures { IfOk result (λ w. Found 1 (lines_of text.now) w.commands.items w.flaws.items) }
{
    let mut work = Work {
        commands: Vec::new(rt.alloc()),
        flaws: Vec::new(rt.alloc()),
    };
    for (above, line) in Lines::new(text).enumerate() {
        work.add(rt, above + 1, line)?;
    }
    Ok(work)
}
