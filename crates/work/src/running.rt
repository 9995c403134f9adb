// Running work files: the one place where they are opened, and where what is wrong with them is named.
ghost use Rattle.std.specs.Prelude.{◌≡◌, ◌≢◌, ◌≤◌, length, IfErr, IfOk, IsOk};

use crate::writing::write_works;
use std::alloc::{AllocError, AllocFailed};
use std::io::Read;
use std::{env, fs, io};
use workfile::reading::*;

// Why the work was not carried out to its end. Faults have been named on standard error by then.
#[derive(Debug, Drop)]
pub enum Halt {
    Faulty,
    Memory,
    // What is said could not be written, or the arguments could not be read.
    Broken(io::Error),
}

// By hand, since clauses name the variant, and what thiserror derives for `#[from]` has no contract.
impl From<AllocError> for Halt {
    ghost use Rattle.work.specs.declared.running.Halt.TheVariants.{Memory};

    ghost from_gives = { λ _ h. h ≡ Memory };

    fn from(_e: AllocError) -> Halt {
        Halt::Memory
    }
}

impl<T: Drop> From<AllocFailed<T>> for Halt {
    ghost use Rattle.work.specs.declared.running.Halt.TheVariants.{Memory};

    ghost from_gives = { λ _ h. h ≡ Memory };

    fn from(_e: AllocFailed<T>) -> Halt {
        Halt::Memory
    }
}

impl From<io::Error> for Halt {
    ghost use Rattle.work.specs.declared.running.Halt.TheVariants.{Broken};

    ghost from_gives = { λ e h. h ≡ Broken e };

    fn from(e: io::Error) -> Halt {
        Halt::Broken(e)
    }
}

// The words after the program's name. Where they cannot be had, no work is called faulty.
pub fn arguments(rt: &HostRuntime) -> Result<Vec<String>, Halt>
    ensures { IfErr result (λ h. h ≢ Halt.Faulty) }
{
    let words: Vec<String> = env::args(rt)?.skip(1).collect(rt.alloc())?;
    Ok(words)
}

// A dash is standard input.
fn read_whole(rt: &HostRuntime, path: &str) -> io::Result<Vec<u8>> {
    if path == "-" {
        let mut text = Vec::new(rt.alloc());
        rt.stdin().read_to_end(&mut text)?;
        return Ok(text);
    }
    fs::read(rt, path)
}

// Looks at one file: its work where it has no fault, and none where its faults have been named.
fn look_at(rt: &HostRuntime, path: &str) -> Result<Option<Work>, Halt> {
    let text = match read_whole(rt, path) {
        Ok(text) => text,
        Err(e) => {
            eprintln!(rt; "{path}: the work file cannot be read: {e}")?;
            return Ok(None);
        }
    };
    let work = read_work(rt, &text)?;
    for flaw in &work.flaws {
        eprintln!(rt; "{path}: {flaw}")?;
    }
    Ok(work.flaws.is_empty().then_some(work))
}

// Every file is looked at, and its faults named, also behind one that is faulty.
fn look_at_all(rt: &HostRuntime, paths: &[String]) -> Result<Vec<Work>, Halt>
    ensures none { length paths.now ≡ 0 → IsOk result }
    ensures within { IfOk result (λ works. length works.items ≤ length paths.now) }
{
    let mut works = Vec::new(rt.alloc());
    for path in paths {
        if let Some(work) = look_at(rt, path)? {
            works.push(work)?;
        }
    }
    Ok(works)
}

// Fewer works than paths say that one was faulty. What holds where no path is named is passed up to `run_files`.
fn carry_out_all(rt: &HostRuntime, paths: &[String]) -> Result<(), Halt>
    ensures { length paths.now ≡ 0 → IsOk result }
{
    let works = look_at_all(rt, paths)?;
    if works.len() < paths.len() {
        return Err(Halt::Faulty);
    }
    write_works(rt.alloc(), &works, &mut rt.stdout())
}

// Carries out work files, each by itself, once no line of any is faulty. Where there are none, nothing fails. By a match, since a
// faulty work has been named.
pub fn run_files(rt: &HostRuntime, paths: &[String]) -> Result<(), Halt>
    ensures { length paths.now ≡ 0 → IsOk result }
{
    let ran = carry_out_all(rt, paths);
    match &ran {
        Ok(()) | Err(Halt::Faulty) => {}
        Err(Halt::Memory) => eprintln!(rt; "not enough memory")?,
        Err(Halt::Broken(e)) => eprintln!(rt; "the work could not be ended: {e}")?,
    }
    ran
}
