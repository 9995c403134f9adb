// The signed block (TBSCertList).
ghost use Rattle.std.specs.Prelude.{◌≡◌};
ghost use Rattle.der.specs.Reads.{told, HasEnds};
ghost use Rattle.block.specs.Blocks.{lines_of, list_told_of, held_of, version_at, entries_at, told_at, context_at, block_at};

use algorithm::identifiers::*;
use der::reader::*;
use elements::walk::*;
use entry::entries::*;
use entry::times::*;
use extension::extensions::*;
use extension::reading::*;
use items::header::*;
use items::item::*;
use refusals::grounds::*;

// Where the entries stand, if there are any, and how many. The count was made while the run was read; without it the run would
// be walked again.
#[derive(Clone, Copy, Debug, PartialEq, Eq)]
pub struct Entries<'a> {
    pub run: Option<Part<'a>>,
    pub count: usize,
}

// What the list's extensions tell.
#[derive(Clone, Copy, Debug, PartialEq, Eq)]
pub struct ListTold<'a> {
    pub number: Part<'a>,
    pub expired: Option<u64>,
}

// What the signed block says.
#[derive(Clone, Copy, Debug, PartialEq, Eq)]
pub struct Block<'a> {
    pub algorithm: Algorithm,
    pub issuer: Part<'a>,
    pub this_update: u64,
    pub next_update: u64,
    pub entries: Entries<'a>,
    pub told: ListTold<'a>,
}

// The content of the INTEGER 1.
const ONE: &[u8] = &[1];

// The version: INTEGER 1.
#[tactic(auto, unfolding(crate::specs::Blocks::version_at))]
fn version(reader: &mut Reader) -> Result<(), Fault>
    ensures read { told (λ u. u) result reader.new ≡ version_at reader.old }
    ensures ends { HasEnds reader.old reader.new }
{
    reader.expect_that(INTEGER, |content| content == ONE)?;
    Ok(())
}

// The entries, if the next item is a SEQUENCE.
#[tactic(auto, unfolding(crate::specs::Blocks::entries_at))]
fn find_entries<'a>(reader: &mut Reader<'a>) -> Result<Entries<'a>, Fault>
    ensures read { told lines_of result reader.new ≡ entries_at reader.old }
    ensures ends { HasEnds reader.old reader.new }
{
    if !reader.next_is(SEQUENCE) {
        return Ok(Entries {
            run: None,
            count: 0,
        });
    }
    let mut inner = reader.open(SEQUENCE)?;
    let run = inner.rest();
    let mut state = Plain;
    let count = walk::<Plain, Entry>(&mut inner, &mut state, &mut [])?;
    Ok(Entries {
        run: Some(run),
        count,
    })
}

// The list's extensions, of which the number is one.
#[tactic(auto, unfolding(crate::specs::Blocks::told_at, extension::specs::Extensions::told_by))]
fn list_told<'a>(reader: &mut Reader<'a>) -> Result<ListTold<'a>, Fault>
    ensures { told list_told_of result reader.new ≡ told_at reader.old }
{
    let extensions = reader.open(SEQUENCE)?;
    let run = extensions.rest();
    let told = read_told(extensions, InList)?;
    let end = run.offset + run.octets.len();
    let number = told.number.ok_or(unexpected(end))?;
    Ok(ListTold {
        number,
        expired: told.expired,
    })
}

// The item with tag A0 around the list's extensions.
#[tactic(auto, unfolding(crate::specs::Blocks::context_at))]
fn context<'a>(reader: &mut Reader<'a>) -> Result<ListTold<'a>, Fault>
    ensures read { told list_told_of result reader.new ≡ context_at reader.old }
    ensures ends { HasEnds reader.old reader.new }
{
    reader.enclosed(CONTEXT_0, list_told)
}

// The content of the signed block.
#[tactic(auto, unfolding(crate::specs::Blocks::block_at))]
pub fn read_block<'a>(reader: &mut Reader<'a>) -> Result<Block<'a>, Fault>
    ensures read { told held_of result reader.new ≡ block_at reader.old }
    ensures ends { HasEnds reader.old reader.new }
{
    version(reader)?;
    let algorithm = read_algorithm(reader)?;
    let issuer = reader.name()?;
    let this_update = time(reader)?;
    let next_update = time(reader)?;
    let entries = find_entries(reader)?;
    let told = context(reader)?;
    Ok(Block {
        algorithm,
        issuer,
        this_update,
        next_update,
        entries,
        told,
    })
}
