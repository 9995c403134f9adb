// The answer over all lists, as it grows with each list's ruling.
ghost use Rattle.std.specs.Prelude.{◌≡◌};
ghost use Rattle.ruling.specs.Cases.{ruling_of, answer_of, answer_number, contradicted, row};
ghost use Rattle.ruling.specs.Answers.{moved};

use crate::cases::*;
use telling::reason::Reason;

// The answer to a question. Lists count from 0, in the order in which they were taken.
#[derive(Clone, Copy, Debug, PartialEq, Eq)]
pub enum Answer {
    // No list rules.
    NoList,
    // Some list rules, and none finally.
    Waiting,
    // Valid, first by this list.
    Valid {
        list: usize,
    },
    // Revoked, first by this list.
    Revoked {
        list: usize,
        date: u64,
        reason: Option<Reason>,
    },
    // The first final ruling, and the first later one that differs from it.
    Contradicted {
        first: usize,
        other: usize,
    },
}

// The answer that two lists, which contradict each other, make.
fn clash(first: usize, other: usize) -> Answer
    ensures { answer_of result ≡ contradicted first other }
{
    Answer::Contradicted { first, other }
}

// The number of the answer.
impl From<Answer> for u8 {
    ghost from_gives = { λ answer number. number ≡ answer_number (answer_of answer) };

    fn from(answer: Answer) -> u8 {
        match answer {
            Answer::NoList => 0,
            Answer::Waiting => 1,
            Answer::Valid { .. } => 2,
            Answer::Revoked { .. } => 3,
            Answer::Contradicted { .. } => 4,
        }
    }
}

impl Answer {
    // How far along the row the answer is. A method, since the conversion into a number is that of its kind.
    pub fn row(self) -> u8
        ensures { result ≡ row (answer_of self) }
    {
        match self {
            Answer::NoList => 0,
            Answer::Waiting => 1,
            Answer::Valid { .. } | Answer::Revoked { .. } => 2,
            Answer::Contradicted { .. } => 3,
        }
    }

    // The answer once the list with this number has ruled so, after the lists before it.
    pub fn with(self, number: usize, ruling: Ruling) -> Answer
        ensures { answer_of result ≡ moved number (ruling_of ruling) (answer_of self) }
    {
        match ruling {
            Ruling::Silent => self,
            Ruling::Waiting => match self {
                Answer::NoList => Answer::Waiting,
                _ => self,
            },
            Ruling::Valid => match self {
                Answer::NoList | Answer::Waiting => Answer::Valid { list: number },
                Answer::Revoked { list, .. } => clash(list, number),
                _ => self,
            },
            Ruling::Revoked { date, reason } => match self {
                Answer::NoList | Answer::Waiting => Answer::Revoked {
                    list: number,
                    date,
                    reason,
                },
                Answer::Valid { list } => clash(list, number),
                Answer::Revoked {
                    list,
                    date: before,
                    ..
                } if before != date => clash(list, number),
                _ => self,
            },
        }
    }
}
