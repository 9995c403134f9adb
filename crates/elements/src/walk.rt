// Elements that can be read, and the one walk over a run of them.
ghost use Rattle.std.specs.Prelude.{◌≡◌, Result, OnOk};
ghost use Rattle.refusals.specs.declared.grounds.Fault.{Fault as Flawed};
ghost use Rattle.der.specs.Reads.{Left, PastAnItem, HasEnds};
ghost use Rattle.elements.specs.Runs.{Walked, kept};

use der::reader::*;
use refusals::grounds::*;

// A kind of element that can be read. What the elements before it in its run have told is a state: one type of element
// can be a kind in several contexts, each with a state of its own.
pub trait Readable<'a, S>: Sized {
    // In this state, with this left to read, reading gives this result, and leaves this state and this to read.
    ghost means: { S → Left → Result Self Flawed → S → Left → Type 0 };

    // A reading that calls nothing of the reader asks `offset` of it once, whose clause says that it has an end.
    fn read(reader: &mut Reader<'a>, state: &mut S) -> Result<Self, Fault>
        ensures read { means state.old reader.old result state.new reader.new }
        ensures long { OnOk result (PastAnItem reader.old reader.new) }
        ensures ends { HasEnds reader.old reader.new };
}

// No state: whatever stood before, the same may follow.
#[derive(Clone, Copy, Debug, PartialEq, Eq)]
pub struct Plain;

// Keeps the element at its place, where the memory has that place. By an index: the loan of `get_mut` left two goals (tried).
fn keep<E: Drop>(out: &mut [E], at: usize, element: E)
    ensures { out.new ≡ kept out.old at element }
{
    if at < out.len() {
        out[at] = element;
    }
}

// Reads one element or more, up to the end, and answers how many. The first of them are kept in `out`, as many as it
// holds; nothing else of it is touched.
pub fn walk<'a, S, E: Readable<'a, S> + Drop>(
    reader: &mut Reader<'a>,
    state: &mut S,
    out: &mut [E],
) -> Result<usize, Fault>
    ensures walked { Walked E.Readable.means state.old reader.old result state.new reader.new out.old out.new }
    ensures ends { HasEnds reader.old reader.new }
{
    // An element takes octets, so that there are no more of them than octets.
    let most = reader.len();
    // Counted by hand, since the count is the answer and goes on past the end of the memory.
    let mut count = 0;
    loop {
        let element = E::read(reader, state)?;
        keep(out, count, element);
        prove!(count < most);
        count += 1;
        if reader.is_empty() {
            return Ok(count);
        }
    }
}
