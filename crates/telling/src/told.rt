// What extensions have told.
ghost use Rattle.std.specs.Prelude.{◌≡◌};
ghost use Rattle.telling.specs.Tells.{tells_of, silent, stood_in, merged};

use super::reason::*;
use super::role::*;
use items::item::*;

// What one extension tells, or several together: nothing, or the value of each that was read.
#[derive(Clone, Copy, Debug, PartialEq, Eq)]
pub struct Told<'a> {
    pub number: Option<Part<'a>>,
    pub expired: Option<u64>,
    pub reason: Option<Reason>,
}

// Nothing told. By hand, since a derived one does not state it.
impl<'a> Default for Told<'a> {
    ghost is_default = { λ t. tells_of t ≡ silent };

    fn default() -> Told<'a> {
        Told {
            number: None,
            expired: None,
            reason: None,
        }
    }
}

impl<'a> Told<'a> {
    // Whether an extension with this role has been read before.
    pub fn stood(&self, role: Role) -> bool
        ensures { result ≡ stood_in (tells_of self.now) role }
    {
        match role {
            Role::Number => self.number.is_some(),
            Role::Expired => self.expired.is_some(),
            Role::Reason => self.reason.is_some(),
            Role::Other => false,
        }
    }

    // What this and more tell together, where one more is told.
    pub fn with(&self, more: &Told<'a>) -> Told<'a>
        ensures { tells_of result ≡ merged (tells_of self.now) (tells_of more.now) }
    {
        Told {
            number: more.number.or(self.number),
            expired: more.expired.or(self.expired),
            reason: more.reason.or(self.reason),
        }
    }
}
