// The rounds, one and four at a time.
ghost use Rattle.std.specs.Prelude.{◌≡◌};
ghost use Rattle.compression.specs.Block.{rounds, round as round_at};

use crate::words::{big_sigma, choose, majority};
use std::simd::prelude::*;

// A round, at the sum of its constant and its word. The sums that are known last are added last,
// which is what makes it fast.
fn round_at(v: [u32; 8], kw: u32) -> [u32; 8]
    ensures { result ≡ round_at 0 kw v }
{
    let [a, b, c, d, e, f, g, h] = v;
    let t1 = h
        .wrapping_add(kw)
        .wrapping_add(choose(e, f, g))
        .wrapping_add(big_sigma::<6, 11, 25>(e));
    let t = t1
        .wrapping_add(majority(a, b, c))
        .wrapping_add(big_sigma::<2, 13, 22>(a));
    [t, a, b, c, d.wrapping_add(t1), e, f, g]
}

// Four rounds, at their constants and words.
pub(crate) fn four_rounds(k: &[u32; 4], w: u32x4, v: [u32; 8]) -> [u32; 8]
    ensures { result ≡ rounds k.now w v }
{
    let sums = (u32x4::from_array(*k) + w).to_array();
    // By `into_iter` it is a loop that is not unrolled: 160 MB/s for 248.
    sums.iter().copied().fold(v, round_at)
}
