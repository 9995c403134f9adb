// The header of an item, and what an item is by its tag.
ghost use Rattle.std.specs.Prelude.{◌≡◌, ℕ, ◌+◌, ◌≤◌, length, IfSome};
ghost use Rattle.items.specs.Parts.{piece_of};
ghost use Rattle.items.specs.Headers.{head_of, fitted, shortest};
ghost use Rattle.items.specs.Things.{thing_of, item_number, number_of_tag, time_tag};

use super::item::*;

// The tags that are read. A tag stays a number and is no enum, since any octet may stand there.
pub const BOOLEAN: u8 = 0x01;

pub const INTEGER: u8 = 0x02;

pub const BIT_STRING: u8 = 0x03;

pub const OCTET_STRING: u8 = 0x04;

pub const OBJECT_IDENTIFIER: u8 = 0x06;

pub const ENUMERATED: u8 = 0x0a;

pub const UTC_TIME: u8 = 0x17;

pub const GENERALIZED_TIME: u8 = 0x18;

pub const SEQUENCE: u8 = 0x30;

pub const CONTEXT_0: u8 = 0xa0;

// A header of `start` octets for a content of `len` octets, where both fit into `total`.
fn fit(start: usize, len: usize, total: usize) -> Option<Head>
    requires { start ≤ total }
    ensures { result ≡ fitted start len total }
{
    (len <= total - start).then_some(Head { start, len })
}

// The header of the item in front, or none where the octets break the rules.
pub fn head(octets: &[u8]) -> Option<Head>
    ensures is { result ≡ head_of octets.now }
    ensures within { IfSome result (λ h. (2 ≤ h.start) × (h.start + h.len ≤ length octets.now)) }
{
    let total = octets.len();
    match octets {
        [tag, ..] if tag % 32 == 31 => None,
        [_, len @ 0..=0x7f, ..] => fit(2, usize::from(*len), total),
        [_, 0x81, len @ 0x80.., ..] => fit(3, usize::from(*len), total),
        [_, 0x82, high @ 1.., low, ..] => {
            fit(4, usize::from(u16::from_be_bytes([*high, *low])), total)
        }
        _ => None,
    }
}

// Whether the content may stand under the tag: that of an INTEGER or ENUMERATED has no needless first octet.
pub fn is_shortest(tag: u8, content: &[u8]) -> bool
    ensures { result ≡ shortest tag content.now }
{
    match (tag, content) {
        (INTEGER | ENUMERATED, []) => false,
        (INTEGER | ENUMERATED, [0, next, ..]) => *next >= 128,
        (INTEGER | ENUMERATED, [255, next, ..]) => *next < 128,
        _ => true,
    }
}

impl<'a> Item<'a> {
    // The item with this tag, where this is laid down.
    pub fn of(laid: Laid, tag: u8, offset: usize, content: Part<'a>) -> Item<'a>
        ensures thing { thing_of result ≡ record { tag = tag; offset = offset; content = piece_of content.entry } }
        ensures number { item_number result ≡ number_of_tag laid tag }
    {
        match (tag, laid) {
            (INTEGER, _) => Item::Integer { offset, content },
            (UTC_TIME, _) => Item::Time {
                form: TimeForm::Utc,
                offset,
                content,
            },
            (GENERALIZED_TIME, _) => Item::Time {
                form: TimeForm::Generalized,
                offset,
                content,
            },
            (SEQUENCE, Laid::Name) => Item::Name { offset, content },
            (SEQUENCE, Laid::Any) => Item::Sequence { offset, content },
            _ => Item::Other {
                tag,
                offset,
                content,
            },
        }
    }

    // The tag octet of the item.
    pub fn tag(&self) -> u8
        ensures { result ≡ (thing_of self.now).tag }
    {
        match self {
            Item::Integer { .. } => INTEGER,
            Item::Time {
                form: TimeForm::Utc,
                ..
            } => UTC_TIME,
            Item::Time {
                form: TimeForm::Generalized,
                ..
            } => GENERALIZED_TIME,
            Item::Name { .. } | Item::Sequence { .. } => SEQUENCE,
            Item::Other { tag, .. } => *tag,
        }
    }

    // The content of the item.
    pub fn content(&self) -> Part<'a>
        ensures { piece_of result ≡ (thing_of self.now).content }
    {
        match self {
            Item::Integer { content, .. }
            | Item::Time { content, .. }
            | Item::Name { content, .. }
            | Item::Sequence { content, .. }
            | Item::Other { content, .. } => *content,
        }
    }
}
