// The commands, and how the words of a line become one.
ghost use Rattle.std.specs.Prelude.{◌≡◌, ℕ, ◌<◌, List, [], ◌∷◌, length, IsUtf8, MatchOption, MatchResult};
ghost use Rattle.tokens.specs.Words.{words as words_of};
ghost use Rattle.workfile.specs.declared.faults.Fault.TheVariants.{MissingWord, ExtraWord, NotText};
ghost use Rattle.workfile.specs.Lines.{Asks, Inspects, Labelled, Loaded, NotInspects, ReadsSource, ReadsVerb, Silent, Unloaded, Wrong, name_of};

use crate::faults::*;
use std::fs;
use std::rt::Files;
use tokens::hex::unhex;
use tokens::words::Words;

// A command with all that it needs: its octets are read when its line is looked at.
#[derive(Debug, PartialEq, Eq, Drop)]
pub enum Command {
    Inspect { list: Vec<u8>, label: String },
}

// Where a line has its octets.
#[derive(Clone, Copy, Debug, PartialEq, Eq)]
enum Source<'t> {
    Hex(&'t [u8]),
    Path(&'t str),
}

impl<'t> TryFrom<&'t [u8]> for Source<'t> {
    type Error = Fault;

    ghost try_from_gives = { λ word r. ReadsSource word.now r };

    fn try_from(word: &'t [u8]) -> Result<Source<'t>, Fault> {
        if let Some(digits) = word.strip_prefix(b"hex:") {
            return Ok(Source::Hex(digits));
        }
        read_text(word).map(Source::Path)
    }
}

impl<'t> Source<'t> {
    // What stands for a label where the line has none.
    fn name(self) -> &'t str
        ensures { result.now ≡ name_of self.entry }
    {
        match self {
            Source::Hex(_) => "hex",
            Source::Path(path) => path,
        }
    }

    fn load<R: Files + AllocGlobal>(self, rt: &R) -> Result<Vec<u8>, Fault>
        ensures { MatchResult result (λ v. Loaded self.entry v.items) (λ e. Unloaded self.entry e) }
    {
        match self {
            Source::Hex(digits) => unhex(rt.alloc(), digits)?.ok_or(Fault::NotHex),
            Source::Path(path) => fs::read(rt, path).map_err(Fault::Unreadable),
        }
    }
}

// The first word of a command.
#[derive(Clone, Copy, Debug, PartialEq, Eq)]
enum Verb {
    Inspect,
}

impl<'t> TryFrom<&'t [u8]> for Verb {
    type Error = Fault;

    ghost try_from_gives = { λ word r. ReadsVerb word.now r };

    fn try_from(word: &'t [u8]) -> Result<Verb, Fault> {
        match word {
            b"inspect" => Ok(Verb::Inspect),
            _ => Err(Fault::NoCommand),
        }
    }
}

fn read_text(word: &[u8]) -> Result<&str, Fault>
    ensures { MatchResult result (λ s. s.now ≡ word.now) (λ e. (e ≡ NotText) × (IsUtf8 word.now → ⊥)) }
{
    std::str::from_utf8(word).map_err(|_| Fault::NotText)
}

// A word that must be there.
fn take_word<'t>(words: &mut Words<'t>) -> Result<&'t [u8], Fault>
    ensures { MatchResult result (λ w. words_of words.old ≡ w.now ∷ words_of words.new) (λ e. (words_of words.old ≡ []) × (e ≡ MissingWord)) }
{
    words.next().ok_or(Fault::MissingWord)
}

fn take_end(words: &mut Words) -> Result<(), Fault>
    ensures { MatchResult result (λ _. words_of words.old ≡ []) (λ e. (0 < length (words_of words.old)) × (e ≡ ExtraWord)) }
{
    words.next().map_or(Ok(()), |_| Err(Fault::ExtraWord))
}

// The label that ends the line, or the name of the source where there is none.
fn take_label<'t>(words: &mut Words<'t>, source: Source<'t>) -> Result<&'t str, Fault>
    ensures { MatchResult result (λ l. Labelled source.entry (words_of words.old) l.now (words_of words.new)) (λ e. (e ≡ NotText) × ((word : List ℕ) × (words_of words.old ≡ word ∷ words_of words.new) × (IsUtf8 word → ⊥))) }
{
    words.next().map_or(Ok(source.name()), read_text)
}

// `inspect OCTETS [LABEL]`, after its first word.
fn inspect_line<'t, R: Files + AllocGlobal>(rt: &R, words: &mut Words<'t>) -> Result<Command, Fault>
    ensures { MatchResult result (λ c. Inspects (words_of words.old) c) (λ e. NotInspects (words_of words.old) e) }
{
    let source = Source::try_from(take_word(words)?)?;
    let label = take_label(words, source)?;
    take_end(words)?;
    let list = source.load(rt)?;
    let label = String::from_str(rt.alloc(), label)?;
    Ok(Command::Inspect { list, label })
}

// The command that a line is, or none where the line is empty or a comment.
pub fn read_command<R: Files + AllocGlobal>(rt: &R, line: &[u8]) -> Result<Option<Command>, Fault>
    ensures { MatchResult result (λ o. MatchOption o (Silent (words_of line.now)) (λ c. Asks (words_of line.now) c)) (λ e. Wrong (words_of line.now) e) }
{
    let mut words = Words::new(line);
    let Some(verb) = words.next() else {
        return Ok(None);
    };
    if verb.starts_with(b"#") {
        return Ok(None);
    }
    let command = match Verb::try_from(verb)? {
        Verb::Inspect => inspect_line(rt, &mut words)?,
    };
    Ok(Some(command))
}
