// The words of a line: what stands between spaces and tabs, and nothing else parts words.
ghost use Rattle.std.specs.Prelude.{◌≡◌, ◌<◌, [], ◌∷◌, length};
ghost use Rattle.std.specs.Iterator.{YieldsFirstRef, item_count};
ghost use Rattle.tokens.specs.Words.{is_blank, words};

use crate::runs::cut_before;
use std::marker::Model;

fn is_blank(b: u8) -> bool
    ensures { result ≡ is_blank b }
{
    b == b' ' || b == b'\t'
}

// The first word of a line, which is empty where no word is left, and what follows it.
fn cut_word(line: &[u8]) -> (&[u8], &[u8])
    ensures none { length result.0.now ≡ 0 → (words line.now ≡ []) × (words result.1.now ≡ []) }
    ensures next { 0 < length result.0.now → words line.now ≡ result.0.now ∷ words result.1.now }
{
    let (_, from) = cut_before(line, |b| !is_blank(b));
    cut_before(from, is_blank)
}

// What is left of a line, as its words are taken one by one. No `split` and `filter`: no clause can name what they yield.
#[derive(Clone, Debug, Drop)]
pub struct Words<'t> {
    rest: &'t [u8],
}

impl<'t> Model for Words<'t> {
    ghost use Rattle.std.specs.Prelude.{ℕ, List};

    ghost Value = { List ℕ };

    ghost view = { λ w. w.rest.now };
}

impl<'t> Words<'t> {
    pub fn new(line: &'t [u8]) -> Words<'t>
        ensures { result ≡ line.now }
    {
        Words { rest: line }
    }

    // What is left of the line.
    pub fn rest(&self) -> &'t [u8]
        ensures { result.now ≡ self.now }
    {
        self.rest
    }
}

impl<'t> Iterator for Words<'t> {
    type Item = &'t [u8];

    ghost next_gives = { YieldsFirstRef words };

    ghost remaining = { item_count words };

    fn next(&mut self) -> Option<&'t [u8]> {
        let (word, rest) = cut_word(self.rest);
        self.rest = rest;
        (!word.is_empty()).then_some(word)
    }
}
