// Extensions, the places where they stand, and what those before them in their run have told.
ghost use Rattle.std.specs.Prelude.{◌≡◌};
ghost use Rattle.telling.specs.declared.role.Context.{Context};

use items::item::Part;
use telling::role::Context;
use telling::told::Told;

// An extension, and what it tells.
#[derive(Clone, Copy, Debug, PartialEq, Eq)]
pub struct Extension<'a> {
    pub identifier: Part<'a>,
    pub critical: bool,
    pub content: Part<'a>,
    pub told: Told<'a>,
}

// A place where extensions stand. It says in which context an extension there is read: as a type and no field, so that no
// clause has to say that the context stays over a run.
pub trait Place {
    ghost stands: { Context };

    fn context() -> Context
        ensures { result ≡ stands };
}

// Among the extensions of a list.
#[derive(Clone, Copy, Debug, PartialEq, Eq)]
pub struct InList;

impl Place for InList {
    ghost stands = { Context.List };

    fn context() -> Context {
        Context::List
    }
}

// Among the extensions of an entry.
#[derive(Clone, Copy, Debug, PartialEq, Eq)]
pub struct InEntry;

impl Place for InEntry {
    ghost stands = { Context.Entry };

    fn context() -> Context {
        Context::Entry
    }
}

// What the extensions of a run have told so far, which stand at such a place.
#[derive(Clone, Copy, Debug, PartialEq, Eq)]
pub struct Before<'a, P> {
    pub told: Told<'a>,
    pub place: P,
}
