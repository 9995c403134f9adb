// The message schedule, four words at a time.
ghost use Rattle.std.specs.Prelude.{◌≡◌, ◌<◌, ◌++◌, map, bit_xor};
ghost use Rattle.compression.specs.Words.{rotr, shr};
ghost use Rattle.compression.specs.Block.{schedule};
ghost use Rattle.compression.specs.Windows.{words_in};

use std::simd::prelude::*;

// Sixteen words of the schedule, in four vectors that the rounds take by name, and the working variables before the rounds of those words.
#[derive(Clone, Copy)]
pub(crate) struct Window {
    pub(crate) v: [u32; 8],
    pub(crate) w0: u32x4,
    pub(crate) w1: u32x4,
    pub(crate) w2: u32x4,
    pub(crate) w3: u32x4,
}

// Each lane rotated to the right by N places.
fn rotate_each<const N: u32>(x: u32x4) -> u32x4
    requires { (0 < N) × (N < 32) }
    ensures { result ≡ map (rotr N) x }
{
    (x >> u32x4::splat(N)) | (x << u32x4::splat(32 - N))
}

// The standard's σ0 of each lane at 7, 18 and 3, and its σ1 at 17, 19 and 10.
fn small_sigma_each<const P: u32, const Q: u32, const S: u32>(x: u32x4) -> u32x4
    requires first { (0 < P) × (P < 32) }
    requires second { (0 < Q) × (Q < 32) }
    requires shift { S < 32 }
    ensures { result ≡ map (λ y. bit_xor (bit_xor (rotr P y) (rotr Q y)) (shr S y)) x }
{
    rotate_each::<P>(x) ^ rotate_each::<Q>(x) ^ (x >> u32x4::splat(S))
}

impl Window {
    // The four words that follow the sixteen. The last two of them rest on the first two, so the
    // first two are made with the last lanes left out, and those are added after.
    pub(crate) fn next_four(self) -> u32x4
        ensures { schedule 4 (words_in self) ≡ words_in self ++ result }
    {
        let Window { w0, w1, w2, w3, .. } = self;
        let zero = u32x4::splat(0);
        let base = w0
            + small_sigma_each::<7, 18, 3>(w0.shuffle(w1, [1, 2, 3, 4]))
            + w2.shuffle(w3, [1, 2, 3, 4]);
        let some = base + small_sigma_each::<17, 19, 10>(w3.shuffle(zero, [2, 3, 4, 5]));
        some + small_sigma_each::<17, 19, 10>(some.shuffle(zero, [4, 5, 0, 1]))
    }
}
