// What a list that keeps the profile holds, one value to a line.
ghost use Rattle.std.specs.Prelude.{Some};
ghost use Rattle.der.specs.Reads.{mapped};
ghost use Rattle.items.specs.Parts.{piece_of};
ghost use Rattle.block.specs.Blocks.{held_of};
ghost use Rattle.list.specs.Lists.{listing_of};
ghost use Rattle.report.specs.Said.{block_text, entry_text, entries_text, list_text, signed_text};

use crate::values::*;
use block::fields::{Block, Entries};
use crl::each::each_entry;
use entry::entries::Entry;
use list::signed::RevocationList;
use std::fmt;

// One entry: its serial, the moment of revocation, and the number of the reason.
#[derive(Clone, Copy)]
pub struct EntryLine<'a>(pub Entry<'a>);

impl<'a> fmt::Display for EntryLine<'a> {
    ghost output = { λ e. Some (entry_text e.0) };

    fn fmt<W: fmt::Write>(&self, f: &mut fmt::Formatter<W>) -> fmt::Result {
        write!(
            f,
            "\n  entry {} {} {}",
            Hex(self.0.serial.octets),
            Moment(self.0.date),
            OrDash(self.0.reason.map(u8::from))
        )
    }
}

// The entries in their order.
#[derive(Clone, Copy)]
pub struct EntryLines<'a>(pub Entries<'a>);

impl<'a> fmt::Display for EntryLines<'a> {
    ghost output = { λ e. Some (entries_text (mapped piece_of e.0.run) e.0.count) };

    fn fmt<W: fmt::Write>(&self, f: &mut fmt::Formatter<W>) -> fmt::Result {
        for entry in each_entry(self.0) {
            write!(f, "{}", EntryLine(entry))?;
        }
        Ok(())
    }
}

// Whose list it is, and what it says of itself.
#[derive(Clone, Copy)]
pub struct BlockLines<'a>(pub Block<'a>);

impl<'a> fmt::Display for BlockLines<'a> {
    ghost output = { λ b. Some (block_text (held_of b.0)) };

    fn fmt<W: fmt::Write>(&self, f: &mut fmt::Formatter<W>) -> fmt::Result {
        write!(
            f,
            "\n  issuer {}\n  thisUpdate {}\n  nextUpdate {}\n  number {}\n  expiredCertsOnCRL {}",
            Place(self.0.issuer),
            Moment(self.0.this_update),
            Moment(self.0.next_update),
            Hex(self.0.told.number.octets),
            OrDash(self.0.told.expired.map(Moment))
        )
    }
}

// What is signed and by what, and how many entries stand in it.
#[derive(Clone, Copy)]
pub struct SignedLines<'a>(pub RevocationList<'a>);

impl<'a> fmt::Display for SignedLines<'a> {
    ghost output = { λ l. Some (signed_text (listing_of l.0)) };

    fn fmt<W: fmt::Write>(&self, f: &mut fmt::Formatter<W>) -> fmt::Result {
        write!(
            f,
            "\n  signed block {}\n  signature {}\n  entries {}",
            Place(self.0.signed.item),
            Place(self.0.signature.item),
            self.0.signed.block.entries.count
        )
    }
}

// All that a list holds; how it is signed is said by the algorithm's code.
#[derive(Clone, Copy)]
pub struct ListLines<'a>(pub RevocationList<'a>);

impl<'a> fmt::Display for ListLines<'a> {
    ghost output = { λ l. Some (list_text (listing_of l.0)) };

    #[tactic(auto, unfolding(crate::specs::Said::list_text))]
    fn fmt<W: fmt::Write>(&self, f: &mut fmt::Formatter<W>) -> fmt::Result {
        write!(
            f,
            "\n  algorithm {}{}{}{}",
            u8::from(self.0.signed.block.algorithm),
            BlockLines(self.0.signed.block),
            SignedLines(self.0),
            EntryLines(self.0.signed.block.entries)
        )
    }
}
