// Reading a list, with its law.
ghost use Rattle.std.specs.Prelude.{◌≡◌, MatchResult};
ghost use Rattle.items.specs.Parts.{piece_of};
ghost use Rattle.der.specs.Reads.{mapped};
ghost use Rattle.entry.specs.Entries.{line_of};
ghost use Rattle.list.specs.Lists.{Listing, listing_of};
ghost use Rattle.crl.specs.Law.{read_of, answered, Keeps, ListsApart, EntriesStand, entry_in, first_in, rest_in};

use der::reader::*;
use entry::entries::*;
use items::item::*;
use list::signed::*;
use refusals::grounds::*;

// The most octets that a list has.
pub const MOST_LIST_OCTETS: usize = 65_535;

// Reads a list. It succeeds, with these values, exactly where the octets are a list in the profile with these values;
// otherwise the refusal is the first fault from the front.
pub fn read_list(octets: &[u8]) -> Result<RevocationList, Refusal>
    ensures read { answered listing_of result ≡ read_of octets.now }
    ensures law { MatchResult result (λ v. Keeps octets.now (listing_of v)) (λ _. (v : Listing) → Keeps octets.now v → ⊥) }
    ensures apart { ListsApart }
    ensures entries { EntriesStand }
{
    read_by_meaning(octets)
}

// The same, by its meaning alone.
#[tactic(auto, unfolding(crate::specs::Law::read_of))]
fn read_by_meaning(octets: &[u8]) -> Result<RevocationList, Refusal>
    ensures { answered listing_of result ≡ read_of octets.now }
{
    if octets.len() > MOST_LIST_OCTETS {
        return Err(Ground::TooLong.at(0).within(Input::List));
    }
    whole_list(octets).map_err(|fault| fault.within(Input::List))
}

// Takes the first entry off a run of entries.
#[tactic(auto, unfolding(crate::specs::Law::entry_in))]
pub fn next_entry<'a>(run: &mut Part<'a>) -> Option<Entry<'a>>
    ensures entry { mapped line_of result ≡ first_in (entry_in (piece_of run.old)) }
    ensures rest { piece_of run.new ≡ rest_in (piece_of run.old) (entry_in (piece_of run.old)) }
{
    let mut reader = Reader::of(*run)?;
    let entry = read_entry(&mut reader).ok()?;
    *run = reader.rest();
    Some(entry)
}
