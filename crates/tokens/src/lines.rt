// The lines of a text.
ghost use Rattle.std.specs.Prelude.{◌≡◌, ℕ, ◌+◌, ◌<◌, ◌∷◌, length, take, drop};
ghost use Rattle.std.specs.Iterator.{YieldsFirstRef, item_count};
ghost use Rattle.tokens.specs.Runs.{run};
ghost use Rattle.tokens.specs.Lines.{in_line, lines};

use crate::runs::cut_before;
use std::marker::Model;

// The first line of a text without its line break, and what follows the break. A text that ends without a break ends its
// last line there.
pub fn cut_line(text: &[u8]) -> (&[u8], &[u8])
    ensures front { result.0.now ≡ take (run in_line text.now) text.now }
    ensures back { result.1.now ≡ drop (run in_line text.now + 1) text.now }
    ensures falls { 0 < length text.now → length result.1.now < length text.now }
    ensures parts { 0 < length text.now → lines text.now ≡ result.0.now ∷ lines result.1.now }
{
    let (line, rest) = cut_before(text, |b| b == b'\n');
    (line, rest.get(1..).unwrap_or_default())
}

// The lines of a text that are left, as they are taken one by one. No `split`: it gives one line more behind a last break, and
// no clause can name what a chain of it yields.
#[derive(Clone, Debug, Drop)]
pub struct Lines<'t> {
    rest: &'t [u8],
}

impl<'t> Model for Lines<'t> {
    ghost use Rattle.std.specs.Prelude.{ℕ, List};
    ghost use Rattle.tokens.specs.Lines.{lines};

    ghost Value = { List (List ℕ) };

    ghost view = { λ l. lines l.rest.now };
}

impl<'t> Lines<'t> {
    pub fn new(text: &'t [u8]) -> Lines<'t>
        ensures { result ≡ lines text.now }
    {
        Lines { rest: text }
    }
}

impl<'t> Iterator for Lines<'t> {
    type Item = &'t [u8];

    ghost next_gives = { YieldsFirstRef (λ l. l) };

    ghost remaining = { item_count (λ l. l) };

    fn next(&mut self) -> Option<&'t [u8]> {
        if self.rest.is_empty() {
            return None;
        }
        let (line, rest) = cut_line(self.rest);
        self.rest = rest;
        Some(line)
    }
}
