// Entries as a writable kind.
ghost use Rattle.std.specs.Prelude.{◌≡◌, ℕ, ◌+◌, ◌≤◌, List, [], length};
ghost use Rattle.encode.specs.Over.{Put};
ghost use Rattle.der.specs.Reads.{mapped};
ghost use Rattle.telling.specs.Reasons.{reason_number};
ghost use Rattle.entry.specs.Entries.{line_of};
ghost use Rattle.writable.specs.Sizes.{sized};
ghost use Rattle.writable.specs.Entries.{time_octets, reason_octets, entry_content, entry_octets, AlikeLine, MayBeListed};

use super::extensions::*;
use super::kinds::*;
use elements::walk::*;
use encode::put::*;
use entry::entries::*;
use items::header::*;
use moment::{general_text, utc_text};
use telling::reason::*;
use telling::role::REASON_CODE;

// How many octets a date is written as. Here and below by two matches: the texts are arrays of different lengths, so that no
// one value holds either.
fn time_size(date: u64) -> usize
    ensures { result ≡ length (time_octets date) }
{
    match utc_text(date) {
        Some(_) => 15,
        None => match general_text(date) {
            Some(_) => 17,
            None => 2,
        },
    }
}

// Writes a date: a UTCTime before 2050, a GeneralizedTime from 2050 on.
fn put_time(date: u64, out: &mut [u8], at: usize) -> usize
    requires { at + length (time_octets date) ≤ length out.old }
    ensures { Put at (time_octets date) out.old out.new result }
{
    match utc_text(date) {
        Some(text) => put_item(out, at, UTC_TIME, &text),
        None => match general_text(date) {
            Some(text) => put_item(out, at, GENERALIZED_TIME, &text),
            None => put_item(out, at, GENERALIZED_TIME, &[]),
        },
    }
}

// How many octets the extensions of an entry are written as. By a match: of `map_or` the length was not proved (tried).
fn reason_size(reason: Option<Reason>) -> usize
    ensures { result ≡ length (reason_octets (mapped reason_number reason)) }
{
    match reason {
        None => 0,
        Some(_) => 14,
    }
}

// Writes the extensions of an entry: its reason, if it has one. By a match, since a closure would borrow the memory.
fn put_reason(reason: Option<Reason>, out: &mut [u8], at: usize) -> usize
    requires { at + length (reason_octets (mapped reason_number reason)) ≤ length out.old }
    ensures { Put at (reason_octets (mapped reason_number reason)) out.old out.new result }
{
    match reason {
        None => at,
        Some(found) => {
            let start = put_head(out, at, SEQUENCE, 12);
            let extension = Bare {
                identifier: REASON_CODE,
                critical: false,
                content: &[ENUMERATED, 1, u8::from(found)],
            };
            extension.put(out, start)
        }
    }
}

// How many octets the content of an entry's item has.
fn content_size(entry: &Entry) -> usize
    requires { length (line_of entry.now).serial.octets ≤ 65535 }
    ensures whole { result ≡ length (entry_content (line_of entry.now)) }
    ensures bound { (length (line_of entry.now).serial.octets ≤ result) × (result ≤ length (line_of entry.now).serial.octets + 35) }
{
    item_size(entry.serial.octets.len()) + (time_size(entry.date) + reason_size(entry.reason))
}

impl<'a> Writable<'a, Plain> for Entry<'a> {
    ghost written = { λ e. entry_octets (line_of e) };

    ghost alike = { λ a b. AlikeLine (line_of a) (line_of b) };

    ghost may = { λ a e. MayBeListed (line_of e) };

    // Bounded as an extension is, each by its own parts.
    fn size(&self) -> Option<usize> {
        if self.serial.octets.len() > MOST_OCTETS {
            return None;
        }
        let size = item_size(content_size(self));
        (size <= MOST_OCTETS).then_some(size)
    }

    fn put(&self, out: &mut [u8], at: usize) -> usize {
        let start = put_head(out, at, SEQUENCE, content_size(self));
        let date = put_item(out, start, INTEGER, self.serial.octets);
        let reason = put_time(self.date, out, date);
        put_reason(self.reason, out, reason)
    }
}
