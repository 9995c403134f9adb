// The times of a list: UTCTime before 2050, GeneralizedTime from 2050 on.
ghost use Rattle.std.specs.Prelude.{◌≡◌};
ghost use Rattle.items.specs.Things.{time_tag};
ghost use Rattle.der.specs.Reads.{told, HasEnds};
ghost use Rattle.entry.specs.Times.{time_by, time_at};

use der::reader::*;
use items::item::*;
use moment::texts::{FIRST_OF_2050, read_general, read_utc};
use refusals::grounds::*;

// The moment that the content of a time says, where the form is the one for its year.
fn moment_in(form: TimeForm, octets: &[u8]) -> Option<u64>
    ensures { result ≡ time_by (time_tag form) octets.now }
{
    // A match, and no table of readings: the forms are two, and one is held to its years besides.
    match form {
        TimeForm::Utc => read_utc(octets),
        TimeForm::Generalized => read_general(octets).filter(|moment| *moment >= FIRST_OF_2050),
    }
}

// An update, or the date of an entry.
#[tactic(auto, unfolding(crate::specs::Times::time_at))]
pub fn time(reader: &mut Reader) -> Result<u64, Fault>
    ensures read { told (λ m. m) result reader.new ≡ time_at reader.old }
    ensures ends { HasEnds reader.old reader.new }
{
    let offset = reader.offset();
    match reader.item(Laid::Any)? {
        Item::Time {
            form,
            offset: _,
            content,
        } => moment_in(form, content.octets).ok_or(Ground::NotATime.at(offset)),
        _ => Err(unexpected(offset)),
    }
}
