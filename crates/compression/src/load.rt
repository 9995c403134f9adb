// How the octets of a block become words: no other file knows.
ghost use Rattle.std.specs.Prelude.{◌≡◌};
ghost use Rattle.compression.specs.Block.{words, word_at};

use std::simd::prelude::*;

// The word of four octets. The compiler makes one load of it.
fn word(octets: &[u8; 4]) -> u32
    ensures { result ≡ word_at octets.now 0 }
{
    u32::from_be_bytes(*octets)
}

// The four words of sixteen octets, by four fixed places.
pub(crate) fn four_words(octets: &[u8; 16]) -> u32x4
    ensures { result ≡ words 4 octets.now }
{
    let (each, _) = octets.as_chunks::<4>();
    u32x4::from_array([
        word(&each[0]),
        word(&each[1]),
        word(&each[2]),
        word(&each[3]),
    ])
}
