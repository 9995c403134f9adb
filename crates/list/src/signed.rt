// The list around the signed block: algorithm and signature.
ghost use Rattle.std.specs.Prelude.{◌≡◌};
ghost use Rattle.der.specs.Reads.{told, seen};
ghost use Rattle.list.specs.Lists.{block_as_of, signature_of, listing_of, signed_at, signature_is, signature_at, body_at, list_at, list_of};

use algorithm::identifiers::*;
use block::fields::*;
use der::reader::*;
use items::header::*;
use items::item::*;
use refusals::grounds::*;

// The signed block, as it stands and by what it says. It and the signature are no `Whole`, since their parts go by their own
// names.
#[derive(Clone, Copy, Debug, PartialEq, Eq)]
pub struct SignedBlock<'a> {
    pub item: Part<'a>,
    pub block: Block<'a>,
}

// The signature: the BIT STRING as it stands, and its octets after the first one of its content.
#[derive(Clone, Copy, Debug, PartialEq, Eq)]
pub struct Signature<'a> {
    pub item: Part<'a>,
    pub octets: Part<'a>,
}

// A revocation list: parts of the caller's octets with their offsets, and the moments.
#[derive(Clone, Copy, Debug, PartialEq, Eq)]
pub struct RevocationList<'a> {
    pub signed: SignedBlock<'a>,
    pub signature: Signature<'a>,
}

// The signed block.
#[tactic(auto, unfolding(crate::specs::Lists::signed_at, der::specs::Items::whole_at))]
fn signed_block<'a>(reader: &mut Reader<'a>) -> Result<SignedBlock<'a>, Fault>
    ensures { told block_as_of result reader.new ≡ signed_at reader.old }
{
    let before = reader.rest();
    let block = reader.enclosed(SEQUENCE, read_block)?;
    Ok(SignedBlock {
        item: reader.since(before),
        block,
    })
}

// Whether the content of a BIT STRING is that of a signature: no unused bits, and at least one octet.
fn is_signature(content: &[u8]) -> bool
    ensures { result ≡ signature_is content.now }
{
    matches!(content, [0, _, ..])
}

// The signature.
#[tactic(auto, unfolding(crate::specs::Lists::signature_at))]
fn read_signature<'a>(reader: &mut Reader<'a>) -> Result<Signature<'a>, Fault>
    ensures { told signature_of result reader.new ≡ signature_at reader.old }
{
    let offset = reader.offset();
    let whole = reader.whole(BIT_STRING)?;
    if !is_signature(whole.content.octets) {
        return Err(unexpected(offset));
    }
    let (_, octets) = whole.content.octets.split_at(1);
    Ok(Signature {
        item: whole.item,
        octets: Part {
            octets,
            offset: whole.content.offset + 1,
        },
    })
}

// The content of the list: signed block, algorithm, signature.
#[tactic(auto, unfolding(crate::specs::Lists::body_at))]
fn list_body<'a>(reader: &mut Reader<'a>) -> Result<RevocationList<'a>, Fault>
    ensures { told listing_of result reader.new ≡ body_at reader.old }
{
    let signed = signed_block(reader)?;
    algorithm_again(reader, signed.block.algorithm)?;
    let signature = read_signature(reader)?;
    Ok(RevocationList { signed, signature })
}

// A list.
#[tactic(auto, unfolding(crate::specs::Lists::list_at))]
fn one_list<'a>(reader: &mut Reader<'a>) -> Result<RevocationList<'a>, Fault>
    ensures { told listing_of result reader.new ≡ list_at reader.old }
{
    reader.enclosed(SEQUENCE, list_body)
}

// The list that the octets are, up to their end.
#[tactic(auto, unfolding(crate::specs::Lists::list_of))]
pub fn whole_list(octets: &[u8]) -> Result<RevocationList, Fault>
    ensures { seen listing_of result ≡ list_of octets.now }
{
    let mut reader = Reader::new(octets);
    let list = one_list(&mut reader)?;
    reader.end()?;
    Ok(list)
}
