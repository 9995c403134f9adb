// How one list rules on a question.
ghost use Rattle.std.specs.Prelude.{◌≡◌, cond, map, Some, None};
ghost use Rattle.std.specs.Str.{bytes_eq};
ghost use Rattle.ruling.specs.Cases.{entry_of, serial_of, asked_of, found_of, ruling_of};
ghost use Rattle.ruling.specs.Rule.{covers_by, earlier_of, earliest_in, judged, ruled_by};
ghost use Rattle.ruling.specs.Table.{Rules, Only};

use crate::cases::*;

// Whether a list covers the certificate. Of the question it takes what it asks.
pub fn covers(facts: Facts, issuer: u8, moments: Moments) -> bool
    ensures { result ≡ covers_by facts issuer moments }
{
    facts.issuer == issuer
        && moments.not_before < facts.this_update
        && facts.expired.unwrap_or(facts.this_update) <= moments.not_after
}

// The earliest that is found once this entry is looked at too: of the same date, what was found.
fn looked_at(found: Option<Mark>, entry: &EntryLine, serial: &[u8]) -> Option<Mark>
    ensures { found_of result ≡ cond (bytes_eq (serial_of entry.now) serial.now) (earlier_of (found_of found) (entry_of entry.now)) (found_of found) }
{
    match found {
        _ if !entry.is_of(serial) => found,
        Some(mark) if mark.date <= entry.date => found,
        _ => Some(Mark {
            date: entry.date,
            reason: entry.reason,
        }),
    }
}

// The earliest date of a serial in the entries, with the reason of the first entry of that date. By a fold over all entries: a
// chain of `filter`, `map` and `min_by_key` took twice the instructions for an entry of another serial.
fn earliest(entries: &[EntryLine], serial: &[u8]) -> Option<Mark>
    ensures { found_of result ≡ earliest_in serial.now (map entry_of entries.now) None }
{
    entries
        .iter()
        .fold(None, |found, entry| looked_at(found, entry, serial))
}

// What a list that covers the certificate rules, by the serial's earliest revocation in it.
fn judge(found: Option<Mark>, control_time: u64, caution: u64, this_update: u64) -> Ruling
    ensures { ruling_of result ≡ judged (found_of found) control_time caution this_update }
{
    match found {
        Some(Mark { date, .. }) if control_time < date => Ruling::Valid,
        Some(Mark { date, reason }) => Ruling::Revoked { date, reason },
        None if control_time as u128 + caution as u128 <= this_update as u128 => Ruling::Valid,
        None => Ruling::Waiting,
    }
}

// What the list with these facts and entries rules on the question.
pub fn rule(facts: Facts, entries: &[EntryLine], question: Question, caution: u64) -> Ruling
    ensures ruling { ruling_of result ≡ ruled_by facts (map entry_of entries.now) (asked_of question.entry) caution }
    ensures table { Only (Rules facts (map entry_of entries.now) (asked_of question.entry) caution) (ruling_of result) }
{
    let moments = question.moments;
    if !covers(facts, question.issuer, moments) {
        return Ruling::Silent;
    }
    let found = earliest(entries, question.serial);
    judge(found, moments.control_time, caution, facts.this_update)
}
