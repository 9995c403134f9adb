// Entries as a kind of element.
ghost use Rattle.std.specs.Prelude.{◌≡◌, OnOk};
ghost use Rattle.der.specs.Reads.{told, told_both, mapped, PastAnItem, HasEnds};
ghost use Rattle.items.specs.Parts.{piece_of};
ghost use Rattle.elements.specs.Names.{plain_of};
ghost use Rattle.telling.specs.Reasons.{reason_number};
ghost use Rattle.entry.specs.Entries.{line_of, serial_is, serial_at, reasons_at, entry_body_at, entry_at, entry_step};

use super::times::*;
use der::reader::*;
use elements::walk::*;
use extension::extensions::*;
use extension::reading::*;
use extension::value::*;
use items::header::*;
use items::item::*;
use refusals::grounds::*;
use telling::reason::*;

// A revoked certificate: its serial, since when, and why.
#[derive(Clone, Copy, Debug, PartialEq, Eq)]
pub struct Entry<'a> {
    pub serial: Part<'a>,
    pub date: u64,
    pub reason: Option<Reason>,
}

// The content of the INTEGER 0.
const ZERO: &[u8] = &[0];

// Whether the content of an INTEGER is that of a serial: above zero, at most 20 octets.
pub fn is_serial(octets: &[u8]) -> bool
    ensures { result ≡ serial_is octets.now }
{
    octets.len() <= MOST_OCTETS && is_from_zero(octets) && octets != ZERO
}

// The serial of a certificate.
#[tactic(auto, unfolding(crate::specs::Entries::serial_at))]
fn serial<'a>(reader: &mut Reader<'a>) -> Result<Part<'a>, Fault>
    ensures { told piece_of result reader.new ≡ serial_at reader.old }
{
    reader.expect_that(INTEGER, is_serial)
}

// The reason that an entry's extensions tell, if it has any.
#[tactic(auto, unfolding(crate::specs::Entries::reasons_at, extension::specs::Extensions::told_by))]
fn reason(reader: &mut Reader) -> Result<Option<Reason>, Fault>
    ensures { told (mapped reason_number) result reader.new ≡ reasons_at reader.old }
{
    if reader.is_empty() {
        return Ok(None);
    }
    let extensions = reader.open(SEQUENCE)?;
    let told = read_told(extensions, InEntry)?;
    Ok(told.reason)
}

// The content of an entry.
#[tactic(auto, unfolding(crate::specs::Entries::entry_body_at))]
fn entry_body<'a>(reader: &mut Reader<'a>) -> Result<Entry<'a>, Fault>
    ensures { told line_of result reader.new ≡ entry_body_at reader.old }
{
    let serial = serial(reader)?;
    let date = time(reader)?;
    let reason = reason(reader)?;
    Ok(Entry {
        serial,
        date,
        reason,
    })
}

// An entry.
#[tactic(auto, unfolding(crate::specs::Entries::entry_at))]
pub fn read_entry<'a>(reader: &mut Reader<'a>) -> Result<Entry<'a>, Fault>
    ensures read { told line_of result reader.new ≡ entry_at reader.old }
    ensures long { OnOk result (PastAnItem reader.old reader.new) }
    ensures ends { HasEnds reader.old reader.new }
{
    reader.enclosed(SEQUENCE, entry_body)
}

impl<'a> Readable<'a, Plain> for Entry<'a> {
    ghost means = { λ a s r b t. told_both line_of plain_of r b t ≡ entry_step (plain_of a) s };

    fn read(reader: &mut Reader<'a>, state: &mut Plain) -> Result<Entry<'a>, Fault> {
        read_entry(reader)
    }
}
