// The reader: goes over the octets item by item, front to back, and stops at the first fault.
ghost use Rattle.std.specs.Prelude.{◌≡◌, ℕ, ◌+◌, ◌^◌, ◌<◌, ◌≤◌, ◌↔◌, length, drop, IfOk, OnErr, OnOk, IfSome, IsNone, IsTrue};
ghost use Rattle.der.specs.Reads.{told, seen, start_of, between, part_left, PastAnItem, HasEnds};
ghost use Rattle.items.specs.Parts.{piece_of, HasEnd};
ghost use Rattle.refusals.specs.Refusals.{fault_at};
ghost use Rattle.std.specs.Fn.{FnOnceReturnsAt, FnOnceReturnsAtMut};
ghost use Rattle.der.specs.Items.{Enclosed, Tested, item_at, expect_at, whole_at, raw_at, name_at, end_at, next_is, wholly_of};
ghost use Rattle.items.specs.Things.{thing_of, item_number, number_of_tag};

use items::header::*;
use items::item::*;
use refusals::grounds::*;
use std::marker::Model;

// What is left to read of some lent octets, and the offset at which that begins. Offsets up to the end fit a usize.
#[derive(Clone, Debug, Drop)]
pub struct Reader<'a> {
    rest: &'a [u8],
    offset: usize,
}

impl<'a> Model for Reader<'a> {
    ghost use Rattle.std.specs.Prelude.{◌+◌, ◌^◌, ◌<◌, length};
    ghost use Rattle.der.specs.Reads.{Left};

    ghost Value = { Left };

    ghost view = { λ r. record { rest = r.rest.now; offset = r.offset } };

    ghost invariant = { λ r. r.offset + length r.rest.now < 2 ^ 64 };
}

// An item as it stands, tag and length included, and by its content.
#[derive(Clone, Copy, Debug, PartialEq, Eq)]
pub struct Whole<'a> {
    pub item: Part<'a>,
    pub content: Part<'a>,
}

// The fault of an item that is missing, extra or not the one laid down.
pub fn unexpected(offset: usize) -> Fault
    ensures { result ≡ fault_at Ground.Unexpected offset }
{
    Ground::Unexpected.at(offset)
}

impl<'a> Reader<'a> {
    // Reads the octets from their front on.
    pub fn new(octets: &'a [u8]) -> Reader<'a>
        ensures new { result ≡ record { rest = octets.now; offset = 0 } }
        ensures within { HasEnd (part_left result) }
    {
        Reader {
            rest: octets,
            offset: 0,
        }
    }

    // Reads the octets from an offset on: none past their end.
    pub fn from_offset(octets: &'a [u8], offset: usize) -> Option<Reader<'a>>
        ensures from { IfSome result (λ r. r ≡ record { rest = drop offset octets.now; offset = offset }) }
        ensures none { IsNone result ↔ (length octets.now < offset) }
        ensures within { IfSome result (λ r. HasEnd (part_left r)) }
    {
        let rest = octets.get(offset..)?;
        Some(Reader { rest, offset })
    }

    // Reads a part from its front on: none where the offset of its end is no usize.
    pub fn of(part: Part<'a>) -> Option<Reader<'a>>
        ensures of { IfSome result (λ r. r ≡ start_of (piece_of part.entry)) }
        ensures none { IsNone result ↔ (2 ^ 64 ≤ part.entry.offset + length part.entry.octets.now) }
        ensures within { IfSome result (λ r. HasEnd (part_left r)) }
    {
        part.offset.checked_add(part.octets.len())?;
        Some(Reader {
            rest: part.octets,
            offset: part.offset,
        })
    }

    // The offset of what is left.
    pub fn offset(&self) -> usize
        ensures is { result ≡ self.now.offset }
        ensures within { HasEnd (part_left self.now) }
    {
        self.offset
    }

    // How many octets are left.
    pub fn len(&self) -> usize
        ensures is { result ≡ length self.now.rest }
        ensures within { HasEnd (part_left self.now) }
    {
        self.rest.len()
    }

    // Whether nothing is left.
    pub fn is_empty(&self) -> bool
        ensures is { IsTrue result ↔ (length self.now.rest ≡ 0) }
        ensures within { HasEnd (part_left self.now) }
    {
        self.rest.is_empty()
    }

    // What is left, as a part.
    pub fn rest(&self) -> Part<'a>
        ensures part { piece_of result ≡ part_left self.now }
        ensures within { HasEnd (piece_of result) }
    {
        Part {
            octets: self.rest,
            offset: self.offset,
        }
    }

    // What was read since this was left. No reading is handed over, since those that end so differ in all else.
    pub fn since(&self, before: Part<'a>) -> Part<'a>
        ensures since { piece_of result ≡ between (start_of (piece_of before.entry)) self.now }
        ensures within { HasEnd (part_left self.now) }
    {
        let read = before.octets.len().saturating_sub(self.rest.len());
        let (octets, _) = before.octets.split_at(read);
        Part {
            octets,
            offset: before.offset,
        }
    }

    // Reads the item in front and goes past it. That two octets are gone then is said of two states, so that no invariant can
    // hold it.
    #[tactic(auto, unfolding(crate::specs::Items::item_at))]
    pub fn item(&mut self, laid: Laid) -> Result<Item<'a>, Fault>
        ensures read { told thing_of result self.new ≡ item_at self.old }
        ensures stays { OnErr result (self.new ≡ self.old) }
        ensures number { IfOk result (λ i. item_number i ≡ number_of_tag laid (thing_of i).tag) }
        ensures within { IfOk result (λ i. HasEnd (thing_of i).content) }
        ensures long { OnOk result (PastAnItem self.old self.new) }
        ensures ends { HasEnds self.old self.new }
    {
        let offset = self.offset;
        let tag = *self.rest.first().ok_or(unexpected(offset))?;
        let found = head(self.rest).ok_or(Ground::Malformed.at(offset))?;
        let (_, after) = self.rest.split_at(found.start);
        let (octets, rest) = after.split_at(found.len);
        if !is_shortest(tag, octets) {
            return Err(Ground::Malformed.at(offset));
        }
        let content = Part {
            octets,
            offset: offset + found.start,
        };
        self.rest = rest;
        self.offset = content.offset + found.len;
        Ok(Item::of(laid, tag, offset, content))
    }

    // Reads the item in front, which must have the tag, and gives its content.
    #[tactic(auto, unfolding(crate::specs::Items::expect_at))]
    pub fn expect(&mut self, tag: u8) -> Result<Part<'a>, Fault>
        ensures read { told piece_of result self.new ≡ expect_at tag self.old }
        ensures within { IfOk result (λ p. HasEnd (piece_of p)) }
        ensures long { OnOk result (PastAnItem self.old self.new) }
        ensures ends { HasEnds self.old self.new }
    {
        let offset = self.offset;
        let item = self.item(Laid::Any)?;
        if item.tag() != tag {
            return Err(unexpected(offset));
        }
        Ok(item.content())
    }

    // Reads the item in front, which must have the tag and a content that is admitted, and gives its content.
    pub fn expect_that<F: FnOnce(&[u8]) -> bool>(
        &mut self,
        tag: u8,
        admits: F,
    ) -> Result<Part<'a>, Fault>
        requires { F.IsAlwaysCallable admits }
        ensures read { Tested (FnOnceReturnsAt F.FnOnce admits) tag self.old result self.new }
        ensures within { IfOk result (λ p. HasEnd (piece_of p)) }
        ensures long { OnOk result (PastAnItem self.old self.new) }
        ensures ends { HasEnds self.old self.new }
    {
        let offset = self.offset;
        let content = self.expect(tag)?;
        if !admits(content.octets) {
            return Err(unexpected(offset));
        }
        Ok(content)
    }

    // Reads the item in front, which must have the tag, and gives a reader of its content. Not by `of`, which can fail.
    pub fn open(&mut self, tag: u8) -> Result<Reader<'a>, Fault>
        ensures read { told part_left result self.new ≡ expect_at tag self.old }
        ensures within { IfOk result (λ r. HasEnd (part_left r)) }
        ensures long { OnOk result (PastAnItem self.old self.new) }
        ensures ends { HasEnds self.old self.new }
    {
        let content = self.expect(tag)?;
        Ok(Reader {
            rest: content.octets,
            offset: content.offset,
        })
    }

    // Reads the item in front, which must have the tag, by a reading of its content that goes to its end.
    pub fn enclosed<T: Drop, F: FnOnce(&mut Reader<'a>) -> Result<T, Fault>>(
        &mut self,
        tag: u8,
        read: F,
    ) -> Result<T, Fault>
        requires { F.IsAlwaysCallable read }
        ensures read { Enclosed (FnOnceReturnsAtMut F.FnOnce read) tag self.old result self.new }
        ensures long { OnOk result (PastAnItem self.old self.new) }
        ensures ends { HasEnds self.old self.new }
    {
        let mut inner = self.open(tag)?;
        let value = read(&mut inner)?;
        inner.end()?;
        Ok(value)
    }

    // Reads the item in front, which must have the tag, and gives it as it stands and by its content.
    #[tactic(auto, unfolding(crate::specs::Items::whole_at))]
    pub fn whole(&mut self, tag: u8) -> Result<Whole<'a>, Fault>
        ensures read { told wholly_of result self.new ≡ whole_at tag self.old }
        ensures within { IfOk result (λ w. HasEnd (piece_of w.item) × HasEnd (piece_of w.content)) }
        ensures long { OnOk result (PastAnItem self.old self.new) }
        ensures ends { HasEnds self.old self.new }
    {
        let before = self.rest();
        let content = self.expect(tag)?;
        Ok(Whole {
            item: self.since(before),
            content,
        })
    }

    // Reads the item in front, whatever its tag, and gives it as it stands.
    #[tactic(auto, unfolding(crate::specs::Items::raw_at))]
    pub fn raw(&mut self) -> Result<Part<'a>, Fault>
        ensures read { told piece_of result self.new ≡ raw_at self.old }
        ensures within { IfOk result (λ p. HasEnd (piece_of p)) }
        ensures ends { HasEnds self.old self.new }
    {
        let before = self.rest();
        self.item(Laid::Any)?;
        Ok(self.since(before))
    }

    // Reads a name: a SEQUENCE with content, which is not opened.
    #[tactic(auto, unfolding(crate::specs::Items::name_at, crate::specs::Items::whole_at, crate::specs::Items::expect_at))]
    pub fn name(&mut self) -> Result<Part<'a>, Fault>
        ensures read { told piece_of result self.new ≡ name_at self.old }
        ensures within { IfOk result (λ p. HasEnd (piece_of p)) }
        ensures long { OnOk result (PastAnItem self.old self.new) }
        ensures ends { HasEnds self.old self.new }
    {
        let before = self.rest();
        match self.item(Laid::Name)? {
            Item::Name { content, .. } if content.octets.is_empty() => {
                Err(unexpected(content.offset))
            }
            Item::Name { .. } => Ok(self.since(before)),
            _ => Err(unexpected(before.offset)),
        }
    }

    // Nothing may be left: an item that is left is one too many, if it is an item at all.
    #[tactic(auto, unfolding(crate::specs::Items::end_at))]
    pub fn end(&mut self) -> Result<(), Fault>
        ensures end { seen (λ u. u) result ≡ end_at self.old }
        ensures still { OnOk result (self.new ≡ self.old) }
        ensures ends { HasEnds self.old self.new }
    {
        let offset = self.offset;
        if self.rest.is_empty() {
            return Ok(());
        }
        self.item(Laid::Any)?;
        Err(unexpected(offset))
    }

    // Whether the next item begins with the tag.
    pub fn next_is(&self, tag: u8) -> bool
        ensures is { result ≡ next_is tag self.now }
        ensures within { HasEnd (part_left self.now) }
    {
        self.rest.first() == Some(&tag)
    }
}
