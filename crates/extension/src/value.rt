// The value of an extension that is read: the one item that its OCTET STRING holds.
ghost use Rattle.std.specs.Prelude.{◌≡◌};
ghost use Rattle.der.specs.Reads.{told, seen, part_left};
ghost use Rattle.items.specs.Parts.{piece_of};
ghost use Rattle.telling.specs.Reasons.{reason_number};
ghost use Rattle.telling.specs.Tells.{tells_of};
ghost use Rattle.extension.specs.Values.{from_zero, number_is, number_at, expired_at, reason_at, value_by};

use der::reader::*;
use items::header::*;
use items::item::*;
use moment::texts::read_general;
use refusals::grounds::*;
use telling::reason::*;
use telling::role::*;
use telling::told::*;

// The most octets that the content of a serial or of a list's number has.
pub const MOST_OCTETS: usize = 20;

// Whether an INTEGER with this content is 0 or more.
pub fn is_from_zero(octets: &[u8]) -> bool
    ensures { result ≡ from_zero octets.now }
{
    matches!(octets, [0..=127, ..])
}

// Whether the content is that of a list's number.
fn is_number(octets: &[u8]) -> bool
    ensures { result ≡ number_is octets.now }
{
    octets.len() <= MOST_OCTETS && is_from_zero(octets)
}

// A list's number: an INTEGER from 0 with at most 20 octets.
#[tactic(auto, unfolding(crate::specs::Values::number_at))]
fn number<'a>(reader: &mut Reader<'a>) -> Result<Part<'a>, Fault>
    ensures { told piece_of result reader.new ≡ number_at reader.old }
{
    reader.expect_that(INTEGER, is_number)
}

// expiredCertsOnCRL: a GeneralizedTime, before 2050 too. It and the reason differ in what reads the content and in the ground
// of the fault.
#[tactic(auto, unfolding(crate::specs::Values::expired_at))]
fn expired(reader: &mut Reader) -> Result<u64, Fault>
    ensures { told (λ m. m) result reader.new ≡ expired_at reader.old }
{
    let offset = reader.offset();
    let content = reader.expect(GENERALIZED_TIME)?;
    read_general(content.octets).ok_or(Ground::NotATime.at(offset))
}

// A reason: an ENUMERATED with a number that is admitted.
#[tactic(auto, unfolding(crate::specs::Values::reason_at))]
fn reason(reader: &mut Reader) -> Result<Reason, Fault>
    ensures { told reason_number result reader.new ≡ reason_at reader.old }
{
    let offset = reader.offset();
    let content = reader.expect(ENUMERATED)?;
    Reason::try_from(content.octets).map_err(|_| Ground::WrongReason.at(offset))
}

// What an extension with this role tells, whose content is left to read.
pub(crate) fn value_by(role: Role, mut reader: Reader) -> Result<Told, Fault>
    ensures { seen tells_of result ≡ value_by role (part_left reader.entry) }
{
    let mut told = Told::default();
    // A match, and no closure for each role: the roles are an enum that is closed, and each tells another field.
    match role {
        Role::Number => told.number = Some(number(&mut reader)?),
        Role::Expired => told.expired = Some(expired(&mut reader)?),
        Role::Reason => told.reason = Some(reason(&mut reader)?),
        Role::Other => return Ok(told),
    }
    reader.end()?;
    Ok(told)
}
