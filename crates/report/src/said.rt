// What is said of one command. Every form of output is made from this enum alone, so that all of them say the same.
ghost use Rattle.std.specs.Prelude.{◌≡◌, ◌<◌, length, take, Some, MatchOption};
ghost use Rattle.refusals.specs.Refusals.{input_number, refused_of};
ghost use Rattle.report.specs.Said.{input_word, refused_text, said_text};

use crate::lists::*;
use crate::values::*;
use list::signed::RevocationList;
use refusals::grounds::*;
use std::fmt;

// A refusal with the octets that stand at its place.
#[derive(Clone, Copy, Debug, PartialEq, Eq)]
pub struct Refused<'o> {
    pub refusal: Refusal,
    pub rest: &'o [u8],
}

// How many octets of what is refused are shown.
const SHOWN: usize = 8;

// The input that a refusal stands in. A word of this text alone, so that it is no Display of the input.
fn input_word(input: Input) -> &'static str
    ensures { result.now ≡ input_word (input_number input) }
{
    match input {
        Input::Neither => "-",
        Input::List => "list",
        Input::Roll => "roll",
    }
}

// The first octets of what is refused, if there are any.
fn first_octets(rest: &[u8]) -> Option<Hex<'_>>
    ensures { MatchOption result (length rest.now ≡ 0) (λ h. (0 < length rest.now) × (h.0.now ≡ take 8 rest.now)) }
{
    (!rest.is_empty()).then(|| Hex(&rest[..rest.len().min(SHOWN)]))
}

impl<'o> fmt::Display for Refused<'o> {
    ghost output = { λ r. Some (refused_text (refused_of r.refusal) r.rest.now) };

    fn fmt<W: fmt::Write>(&self, f: &mut fmt::Formatter<W>) -> fmt::Result {
        write!(
            f,
            "refused {} {} {} {}",
            u8::from(self.refusal.ground),
            input_word(self.refusal.input),
            self.refusal.offset,
            OrDash(first_octets(self.rest))
        )
    }
}

// The label of a line and the octets of an input have owners of their own, hence two lifetimes. Cases and no Result, since each
// command says something of its own.
#[derive(Clone, Copy, Debug, PartialEq, Eq)]
pub enum Said<'a, 'o> {
    Inspected {
        label: &'a str,
        length: usize,
        list: RevocationList<'o>,
    },
    Refused {
        verb: &'a str,
        label: &'a str,
        refused: Refused<'o>,
    },
}

impl<'a, 'o> fmt::Display for Said<'a, 'o> {
    ghost output = { λ s. Some (said_text s) };

    fn fmt<W: fmt::Write>(&self, f: &mut fmt::Formatter<W>) -> fmt::Result {
        match *self {
            Said::Inspected {
                label,
                length,
                list,
            } => write!(f, "inspect {label}: {length} octets{}", ListLines(list)),
            Said::Refused {
                verb,
                label,
                refused,
            } => write!(f, "{verb} {label}: {refused}"),
        }
    }
}
