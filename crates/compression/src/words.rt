// The functions on words that a round takes (FIPS 180-4, section 4.1.2).
ghost use Rattle.std.specs.Prelude.{◌≡◌, bit_xor};
ghost use Rattle.std.specs.Int.{w32, rotate_right};
ghost use Rattle.compression.specs.Words.{ch, maj};

// The standard's Ch, with one operation less: where x has a bit, that of y, else that of z.
#[tactic(auto, using(crate::proofs::WordLaws::choose_law), unfolding(crate::specs::Words::ch))]
pub(crate) fn choose(x: u32, y: u32, z: u32) -> u32
    ensures { result ≡ ch x y z }
{
    z ^ (x & (y ^ z))
}

#[tactic(auto, unfolding(crate::specs::Words::maj))]
pub(crate) fn majority(x: u32, y: u32, z: u32) -> u32
    ensures { result ≡ maj x y z }
{
    (x & y) ^ (x & z) ^ (y & z)
}

// The standard's Σ0 at 2, 13 and 22, and its Σ1 at 6, 11 and 25.
pub(crate) fn big_sigma<const P: u32, const Q: u32, const R: u32>(x: u32) -> u32
    ensures { result ≡ bit_xor (bit_xor (rotate_right w32 x P) (rotate_right w32 x Q)) (rotate_right w32 x R) }
{
    x.rotate_right(P) ^ x.rotate_right(Q) ^ x.rotate_right(R)
}
