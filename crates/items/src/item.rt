// Items and parts of the lent octets.

// A part of the lent octets, with its offset. Clauses say what it holds by `piece_of`, and so of the types that are made of
// parts: a type with a lifetime has no model where it is Copy. That a part's end is an offset stands in clauses for the same reason.
#[derive(Clone, Copy, Debug, PartialEq, Eq)]
pub struct Part<'a> {
    pub octets: &'a [u8],
    pub offset: usize,
}

// The two forms of a time.
#[derive(Clone, Copy, Debug, PartialEq, Eq)]
pub enum TimeForm {
    Utc,
    Generalized,
}

// An item: what it is, the offset of its tag, and its content. Each case has both by itself, so that a match hands them out.
#[derive(Clone, Copy, Debug, PartialEq, Eq)]
pub enum Item<'a> {
    Integer {
        offset: usize,
        content: Part<'a>,
    },
    Time {
        form: TimeForm,
        offset: usize,
        content: Part<'a>,
    },
    // A SEQUENCE where a name is laid down.
    Name {
        offset: usize,
        content: Part<'a>,
    },
    Sequence {
        offset: usize,
        content: Part<'a>,
    },
    Other {
        tag: u8,
        offset: usize,
        content: Part<'a>,
    },
}

// Whether a name is laid down where an item is read: the octets alone do not tell a name from another SEQUENCE.
#[derive(Clone, Copy, Debug, PartialEq, Eq)]
pub enum Laid {
    Name,
    Any,
}

// Where the content of an item begins in it, and how long it is.
#[derive(Clone, Copy, Debug, PartialEq, Eq)]
pub struct Head {
    pub start: usize,
    pub len: usize,
}
