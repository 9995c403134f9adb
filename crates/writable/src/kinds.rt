// The writable kinds, on top of the readable ones.
ghost use Rattle.std.specs.Prelude.{◌≡◌, ℕ, ◌+◌, ◌≤◌, List, ◌++◌, length, Result, MatchResult};
ghost use Rattle.refusals.specs.declared.grounds.Fault.{Fault as Flawed};
ghost use Rattle.der.specs.Reads.{Left};
ghost use Rattle.encode.specs.Over.{Put};
ghost use Rattle.writable.specs.Sizes.{sized};

use elements::walk::*;

// A kind that can be written. An element holds parts with their offsets, so what reads back is not the same value, but
// one that says the same.
pub trait Writable<'a, S>: Readable<'a, S> {
    // The octets that the element is written as.
    ghost written: { Self → List ℕ };

    // The two say the same, offsets aside.
    ghost alike: { Self → Self → Type 0 };

    // In this state the element may stand.
    ghost may: { S → Self → Type 0 };

    // How many octets the element is written as; none past 65,535, where no list can hold it.
    fn size(&self) -> Option<usize>
        ensures { result ≡ sized (length (written self.now)) };

    // Writes the element from a place on, and answers the place after it. Whatever reading what was written then gives,
    // it is an element that says the same, and what follows is left. For the crates that write runs and lists, which
    // sum up the sizes first. Memory and place are two arguments, as in `encode`.
    fn put(&self, out: &mut [u8], at: usize) -> usize
        requires room { at + length (written self.now) ≤ length out.old }
        requires short { length (written self.now) ≤ 65535 }
        ensures put { Put at (written self.now) out.old out.new result }
        ensures back { (a : S) (p : ℕ) (rest : List ℕ) (r : Result Self Flawed) (b : S) (t : Left) → may a self.now → Self.Readable.means a (record { rest = written self.now ++ rest; offset = p }) r b t → MatchResult r (λ e. alike e self.now × (t.rest ≡ rest)) (λ _. ⊥) };
}
