// Hex digits: a word of them, and the octets that it writes.
ghost use Rattle.std.specs.Prelude.{◌≡◌, ◌<◌, IfSome, IfOk, Some, None, MatchOption};
ghost use Rattle.tokens.specs.Hex.{digit_value, octet, unhexed};

use std::alloc::{AllocError, Global};

// The value of one hex digit, in either case.
fn nibble(b: u8) -> Option<u8>
    ensures value { result ≡ digit_value b }
    ensures bound { IfSome result (λ x. x < 16) }
{
    char::from(b).to_digit(16).map(|value| value as u8)
}

// The octet of two digits, where both are.
fn octet(high: u8, low: u8) -> Option<u8>
    ensures { result ≡ octet (digit_value high) (digit_value low) }
{
    Some(16 * nibble(high)? + nibble(low)?)
}

// The octets that a word of hex digits writes, two digits to an octet, or none where the word is no such word. An empty
// word writes no octets. Not by the crate `hex`: its error has want of memory as a case, which would have to be made an
// AllocError by hand.
pub fn unhex(heap: Global, word: &[u8]) -> Result<Option<Vec<u8>>, AllocError>
    ensures value { IfOk result (λ o. MatchOption o (unhexed word.now ≡ None) (λ v. unhexed word.now ≡ Some v.items)) }
{
    let (pairs, odd) = word.as_chunks::<2>();
    if !odd.is_empty() {
        return Ok(None);
    }
    let mut octets = Vec::with_capacity(heap, pairs.len())?;
    for [high, low] in pairs {
        let Some(octet) = octet(*high, *low) else {
            return Ok(None);
        };
        octets.push(octet)?;
    }
    Ok(Some(octets))
}
