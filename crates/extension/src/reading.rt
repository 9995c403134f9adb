// Extensions as a kind of element, in a list and in an entry.
ghost use Rattle.std.specs.Prelude.{◌≡◌, OnOk};
ghost use Rattle.der.specs.Reads.{told, told_both, seen, part_left, PastAnItem, HasEnds};
ghost use Rattle.telling.specs.Tells.{tells_of};
ghost use Rattle.extension.specs.Extensions.{extension_of, before_tells, unread, flag_at, body_at, extension_at, extension_step, told_by};

use super::extensions::*;
use super::value::*;
use der::reader::*;
use elements::walk::*;
use items::header::*;
use refusals::grounds::*;
use telling::role::*;
use telling::told::*;

// The content of a BOOLEAN that is true.
const TRUE: &[u8] = &[0xff];

// Whether the extension is critical: its flag is 01 01 FF, or nothing.
#[tactic(auto, unfolding(crate::specs::Extensions::flag_at))]
fn flag(reader: &mut Reader) -> Result<bool, Fault>
    ensures { told (λ b. b) result reader.new ≡ flag_at reader.old }
{
    if !reader.next_is(BOOLEAN) {
        return Ok(false);
    }
    reader.expect_that(BOOLEAN, |content| content == TRUE)?;
    Ok(true)
}

// Whether nothing is read out of an extension with this role.
fn is_other(role: Role) -> bool
    ensures { result ≡ unread role }
{
    role == Role::Other
}

// The content of the extension whose tag stands at `at`, where these were told before it. Not inlined: within `read_extension` its
// large result was put together twice, and a run of extensions took a third more time.
#[inline(never)]
#[tactic(auto, unfolding(crate::specs::Extensions::body_at))]
fn body<'a>(
    reader: &mut Reader<'a>,
    context: Context,
    before: &Told<'a>,
    at: usize,
) -> Result<Extension<'a>, Fault>
    ensures { told extension_of result reader.new ≡ body_at context (tells_of before.now) at reader.old }
{
    let identifier = reader.expect(OBJECT_IDENTIFIER)?;
    let role = role_of(context, identifier.octets);
    if before.stood(role) {
        return Err(unexpected(at));
    }
    let critical = flag(reader)?;
    if critical && is_other(role) {
        return Err(Ground::Critical.at(at));
    }
    let value = reader.open(OCTET_STRING)?;
    let content = value.rest();
    let told = value_by(role, value)?;
    Ok(Extension {
        identifier,
        critical,
        content,
        told,
    })
}

// An extension, where these were told before it. Inlined: else the large result of `body` is copied once more.
#[inline(always)]
#[tactic(auto, unfolding(crate::specs::Extensions::extension_at))]
fn read_extension<'a>(
    reader: &mut Reader<'a>,
    context: Context,
    before: &Told<'a>,
) -> Result<Extension<'a>, Fault>
    ensures read { told extension_of result reader.new ≡ extension_at context (tells_of before.now) reader.old }
    ensures long { OnOk result (PastAnItem reader.old reader.new) }
    ensures ends { HasEnds reader.old reader.new }
{
    let at = reader.offset();
    // Not by `enclosed`: of a closure that captures, the check did not find what it gives (tried).
    let mut inner = reader.open(SEQUENCE)?;
    let extension = body(&mut inner, context, before, at)?;
    inner.end()?;
    Ok(extension)
}

impl<'a, P: Place> Readable<'a, Before<'a, P>> for Extension<'a> {
    ghost means = { λ a s r b t. told_both extension_of before_tells r b t ≡ extension_step P.stands (before_tells a) s };

    fn read(reader: &mut Reader<'a>, state: &mut Before<'a, P>) -> Result<Extension<'a>, Fault> {
        let extension = read_extension(reader, P::context(), &state.told)?;
        state.told = state.told.with(&extension.told);
        Ok(extension)
    }
}

// What a run of extensions tells, up to the end of what is left.
pub fn read_told<'a, P: Place + Drop + 'a>(reader: Reader<'a>, place: P) -> Result<Told<'a>, Fault>
    ensures { seen tells_of result ≡ told_by P.stands (part_left reader.entry) }
{
    let mut inner = reader;
    let mut state = Before {
        told: Told::default(),
        place,
    };
    let _count = walk::<Before<P>, Extension>(&mut inner, &mut state, &mut [])?;
    Ok(state.told)
}
