// SHA-256 of a message that is there as a whole.
ghost use Rattle.std.specs.Prelude.{◌≡◌, ℕ, ◌/◌, ◌%◌, List, ◌++◌, length, fold};
ghost use Rattle.compression.specs.Block.{compress as compressed};
ghost use Rattle.digest.specs.Sha256.{initial, absorbed, padding, octets_of, sha256 as hash_of};

use crate::constants::INITIAL;
use crate::pad::padded;
use compression::compress;

// The state after blocks, which are read where they stand. By a `for`: a fold by a function of another crate is given no
// contract, and an array result may not be assigned at once (tried).
pub(crate) fn absorb_blocks(mut h: [u32; 8], blocks: &[[u8; 64]]) -> [u32; 8]
    ensures { result ≡ fold compressed h blocks.now }
{
    for block in blocks {
        let next = compress(h, block);
        h = next;
    }
    h
}

// The state after the rest of a message of `total` octets and the padding: a block or two, both of fixed size, since there is
// no heap.
pub(crate) fn last(h: [u32; 8], rest: &[u8], total: u64) -> [u32; 8]
    requires { length rest.now ≡ total % 64 }
    ensures { result ≡ absorbed (length (rest.now ++ padding total) / 64) h (rest.now ++ padding total) }
{
    if rest.len() < 56 {
        absorb_blocks(h, padded::<64>(rest, total).as_chunks::<64>().0)
    } else {
        absorb_blocks(h, padded::<128>(rest, total).as_chunks::<64>().0)
    }
}

pub(crate) fn octets(v: [u32; 8]) -> [u8; 32]
    ensures { result ≡ octets_of v }
{
    let mut out = [0u8; 32];
    out.copy_from_slice(v.map(u32::to_be_bytes).as_flattened());
    out
}

// State, count and rest stay apart, as the two callers have them.
// The digest of a message whose first `before` octets, which are whole blocks, led to the state h, and whose rest is m.
pub(crate) fn finish(h: [u32; 8], before: u64, m: &[u8]) -> [u8; 32]
    requires { before % 64 ≡ 0 }
    ensures { (p : List ℕ) → length p ≡ before → h ≡ absorbed (before / 64) initial p → result ≡ hash_of (p ++ m.now) }
{
    let (blocks, rest) = m.as_chunks::<64>();
    let total = before.wrapping_add(m.len() as u64);
    octets(last(absorb_blocks(h, blocks), rest, total))
}

// The digest of a message.
pub fn sha256(message: &[u8]) -> [u8; 32]
    ensures { result ≡ hash_of message.now }
{
    finish(INITIAL, 0, message)
}
