// Names as a kind of element.
ghost use Rattle.std.specs.Prelude.{◌≡◌};
ghost use Rattle.der.specs.Reads.{told_both};
ghost use Rattle.elements.specs.Names.{name_of, plain_of, name_step};

use super::walk::*;
use der::reader::*;
use items::item::*;
use refusals::grounds::*;

// A name, as it stands. Names are told apart by their octets alone.
#[derive(Clone, Copy, Debug, PartialEq, Eq)]
pub struct Name<'a> {
    pub item: Part<'a>,
}

impl<'a> Readable<'a, Plain> for Name<'a> {
    ghost means = { λ a s r b t. told_both name_of plain_of r b t ≡ name_step (plain_of a) s };

    fn read(reader: &mut Reader<'a>, state: &mut Plain) -> Result<Name<'a>, Fault> {
        let item = reader.name()?;
        Ok(Name { item })
    }
}
