// Extensions as a writable kind, wherever they stand.
ghost use Rattle.std.specs.Prelude.{◌≡◌, ℕ, ◌+◌, ◌≤◌, length};
ghost use Rattle.encode.specs.Over.{Put};
ghost use Rattle.extension.specs.Extensions.{extension_of, before_tells};
ghost use Rattle.writable.specs.Sizes.{sized};
ghost use Rattle.writable.specs.Extensions.{flag_octets, bare_content, bare_octets, BareOf, extension_octets, AlikeExtn, MayStand};

use super::kinds::*;
use encode::put::*;
use extension::extensions::*;
use items::header::*;

// The most octets that an element may take.
pub const MOST_OCTETS: usize = 65_535;

// What an extension is written from: its octets, wherever they lie.
#[derive(Clone, Copy, Debug, PartialEq, Eq)]
pub struct Bare<'e> {
    pub identifier: &'e [u8],
    pub critical: bool,
    pub content: &'e [u8],
}

impl<'a> From<&Extension<'a>> for Bare<'a> {
    ghost from_gives = { λ e b. BareOf (extension_of e.now) b };

    fn from(extension: &Extension<'a>) -> Bare<'a> {
        Bare {
            identifier: extension.identifier.octets,
            critical: extension.critical,
            content: extension.content.octets,
        }
    }
}

// The flag of a critical extension, or nothing.
fn flag_octets(critical: bool) -> &'static [u8]
    ensures { result.now ≡ flag_octets critical }
{
    if critical { &[1, 1, 255] } else { &[] }
}

impl<'e> Bare<'e> {
    // How many octets the content of the extension's item has.
    fn content_size(&self) -> usize
        requires { (length self.now.identifier.now ≤ 65535) × (length self.now.content.now ≤ 65535) }
        ensures whole { result ≡ length (bare_content self.now) }
        ensures bound { (length self.now.identifier.now + length self.now.content.now ≤ result) × (result ≤ length self.now.identifier.now + length self.now.content.now + 11) }
    {
        item_size(self.identifier.len())
            + (flag_octets(self.critical).len() + item_size(self.content.len()))
    }

    // How many octets the extension is written as.
    pub fn size(&self) -> Option<usize>
        ensures { result ≡ sized (length (bare_octets self.now)) }
    {
        let longest = self.identifier.len().max(self.content.len());
        if longest > MOST_OCTETS {
            return None;
        }
        let size = item_size(self.content_size());
        (size <= MOST_OCTETS).then_some(size)
    }

    // Writes the extension.
    pub fn put(&self, out: &mut [u8], at: usize) -> usize
        requires room { at + length (bare_octets self.now) ≤ length out.old }
        requires short { length (bare_octets self.now) ≤ 65535 }
        ensures { Put at (bare_octets self.now) out.old out.new result }
    {
        let start = put_head(out, at, SEQUENCE, self.content_size());
        let flag = put_item(out, start, OBJECT_IDENTIFIER, self.identifier);
        let value = put(out, flag, flag_octets(self.critical));
        put_item(out, value, OCTET_STRING, self.content)
    }
}

impl<'a, P: Place> Writable<'a, Before<'a, P>> for Extension<'a> {
    ghost written = { λ e. extension_octets (extension_of e).identifier.octets (extension_of e).critical (extension_of e).content.octets };

    ghost alike = { λ a b. AlikeExtn (extension_of a) (extension_of b) };

    ghost may = { λ a e. MayStand P.stands (before_tells a) (extension_of e) };

    fn size(&self) -> Option<usize> {
        Bare::from(self).size()
    }

    fn put(&self, out: &mut [u8], at: usize) -> usize {
        Bare::from(self).put(out, at)
    }
}
