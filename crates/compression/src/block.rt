// The state after a block.
ghost use Rattle.std.specs.Prelude.{◌≡◌, length};
ghost use Rattle.compression.specs.Block.{rounds, words as words_of, compress as compressed};
ghost use Rattle.compression.specs.Windows.{words_in, Leads};

use crate::constants::K;
use crate::load::four_words;
use crate::rounds::four_rounds;
use crate::schedule::Window;
use std::simd::prelude::*;

// The words of a block, and the state as the working variables. Four vectors by four fixed places: there is nothing to count.
fn start(h: [u32; 8], block: &[u8; 64]) -> Window
    ensures words { words_in result ≡ words_of 16 block.now }
    ensures state { result.v ≡ h }
{
    let (fours, _) = block.as_chunks::<16>();
    Window {
        v: h,
        w0: four_words(&fours[0]),
        w1: four_words(&fours[1]),
        w2: four_words(&fours[2]),
        w3: four_words(&fours[3]),
    }
}

// Four rounds, and the window four words on.
fn four(s: Window, k: &[u32; 4]) -> Window
    ensures { Leads s result k.now }
{
    Window {
        v: four_rounds(k, s.w0, s.v),
        w0: s.w1,
        w1: s.w2,
        w2: s.w3,
        w3: s.next_four(),
    }
}

// Sixteen rounds, and the window sixteen words on.
fn sixteen(mut s: Window, k: &[u32; 16]) -> Window
    ensures { Leads s result k.now }
{
    let (fours, _) = k.as_chunks::<4>();
    for k in fours {
        s = four(s, k);
    }
    s
}

// The last sixteen rounds, which need no further words. By four fixed places, since each takes another of the four vectors.
fn last_sixteen(s: Window, k: &[u32]) -> [u32; 8]
    requires { length k.now ≡ 16 }
    ensures { result ≡ rounds k.now (words_in s) s.v }
{
    let (fours, _) = k.as_chunks::<4>();
    let v = four_rounds(&fours[0], s.w0, s.v);
    let v = four_rounds(&fours[1], s.w1, v);
    let v = four_rounds(&fours[2], s.w2, v);
    four_rounds(&fours[3], s.w3, v)
}

// The state after a block, from the state h before it.
pub fn compress(h: [u32; 8], block: &[u8; 64]) -> [u32; 8]
    ensures { result ≡ compressed h block.now }
{
    let (first, last) = K.split_at(48);
    let (sixteens, _) = first.as_chunks::<16>();
    let mut s = start(h, block);
    for k in sixteens {
        s = sixteen(s, k);
    }
    (u32x8::from_array(h) + u32x8::from_array(last_sixteen(s, last))).to_array()
}
