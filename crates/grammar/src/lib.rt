// What octets are in DER, as relations; readers are exact on them. This crate holds the law that items keep.
#![tactic(auto)]

ghost use Rattle.std.specs.Prelude.{◌≡◌, MatchResult};
ghost use Rattle.der.specs.Reads.{seen};
ghost use Rattle.items.specs.Things.{Thing, thing_of};
ghost use Rattle.grammar.specs.Law.{item_in, Stands, OneEncoding};

use der::reader::*;
use items::item::*;
use refusals::grounds::*;

// The item at an offset of the octets: read exactly where one stands, and no two encodings are the same item.
pub fn item_at(octets: &[u8], offset: usize) -> Result<Item, Fault>
    ensures read { seen thing_of result ≡ item_in octets.now offset }
    ensures law { MatchResult result (λ i. Stands octets.now offset (thing_of i)) (λ _. (i : Thing) → Stands octets.now offset i → ⊥) }
    ensures once { OneEncoding }
{
    read_at(octets, offset)
}

// The same, by its meaning alone.
fn read_at(octets: &[u8], offset: usize) -> Result<Item, Fault>
    ensures { seen thing_of result ≡ item_in octets.now offset }
{
    Reader::from_offset(octets, offset)
        .ok_or(unexpected(offset))?
        .item(Laid::Any)
}
