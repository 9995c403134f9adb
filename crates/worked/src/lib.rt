// The worked cases: ten rulings and three moments, each with the answer that is due.
#![tactic(auto)]

ghost use Rattle.std.specs.Prelude.{◌≡◌, [], ◌∷◌, map, Some, None};
ghost use Rattle.ruling.specs.Cases.{answer_of, ruling_of};
ghost use Rattle.worked.specs.Cases.{ruled_at, answered_at, listing, cases, due_answers, due_moments, AllWorked};

use moment::read_utc;
use ruling::answers::Answer;
use ruling::cases::{EntryLine, Facts, Moments, Question, Ruling};
use ruling::drawing::answer;
use ruling::listing::rule;

// What the worked cases come to.
#[derive(Clone, Copy, Debug, PartialEq, Eq)]
pub struct Worked {
    pub answers: [Answer; 10],
    pub moments: [Option<u64>; 3],
}

// A list of the worked cases: its thisUpdate, its expiredCertsOnCRL, and the date of its one entry of the serial.
#[derive(Clone, Copy, Debug, PartialEq, Eq)]
struct Listing {
    update: u64,
    expired: Option<u64>,
    date: Option<u64>,
}

impl Listing {
    fn new(update: u64, expired: Option<u64>, date: Option<u64>) -> Listing
        ensures { result ≡ record { update = update; expired = expired; date = date } }
    {
        Listing {
            update,
            expired,
            date,
        }
    }

    // What it rules at a moment.
    fn ruled(self, time: u64) -> Ruling
        ensures { ruling_of result ≡ ruled_at time (listing self.update self.expired self.date) }
    {
        let facts = Facts {
            issuer: 0,
            this_update: self.update,
            expired: self.expired,
        };
        let moments = Moments {
            not_before: 100,
            not_after: 1000,
            control_time: time,
        };
        let question = Question {
            issuer: 0,
            serial: &[7],
            moments,
        };
        let mut serial = [0; 20];
        serial[0] = 7;
        let entry = self.date.map(|date| EntryLine {
            serial,
            size: 1,
            date,
            reason: None,
        });
        rule(facts, entry.as_slice(), question, 10)
    }

    // The answer over it alone.
    fn alone(self, time: u64) -> Answer
        ensures { answer_of result ≡ answered_at time (listing self.update self.expired self.date ∷ []) }
    {
        answer(&[self.ruled(time)])
    }
}

// The answer over the list of 200, which does not list the serial, and the list of 300, which dates it 150.
fn two(time: u64) -> Answer
    ensures { answer_of result ≡ answered_at time (listing 200 None None ∷ listing 300 None (Some 150) ∷ []) }
{
    answer(&[
        Listing::new(200, None, None).ruled(time),
        Listing::new(300, None, Some(150)).ruled(time),
    ])
}

// The worked cases, asked and read.
pub fn worked_cases() -> Worked
    ensures worked { AllWorked }
    ensures answers { map answer_of result.answers ≡ due_answers cases }
    ensures moments { result.moments ≡ due_moments cases }
{
    let answers = [
        Listing::new(100, None, None).alone(150),
        Listing::new(101, None, None).alone(92),
        Listing::new(1000, None, Some(500)).alone(500),
        Listing::new(1001, Some(1000), None).alone(100),
        Listing::new(1001, Some(1001), None).alone(100),
        two(149),
        Listing::new(101, None, None).alone(91),
        Listing::new(1000, None, Some(500)).alone(499),
        Listing::new(1001, None, None).alone(100),
        two(150),
    ];
    let moments = [
        read_utc(b"500101000000Z"),
        read_utc(b"491231235959Z"),
        read_utc(b"010229000000Z"),
    ];
    Worked { answers, moments }
}
