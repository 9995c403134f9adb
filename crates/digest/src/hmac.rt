// HMAC with SHA-256, at keys of 32 octets.
ghost use Rattle.std.specs.Prelude.{◌≡◌};
ghost use Rattle.digest.specs.Hmac.{keyed, hmac as hmac_of};

use crate::constants::INITIAL;
use crate::hash::finish;
use compression::compress;

// The key, with zeros to the length of a block, and each octet turned by `pad`. (A zero turned by `pad` is `pad`.)
fn keyed_block(key: &[u8; 32], pad: u8) -> [u8; 64]
    ensures { result ≡ keyed pad key.now }
{
    let mut block = [pad; 64];
    block[..32].copy_from_slice(&key.map(|x| x ^ pad));
    block
}

// The HMAC of a message. The message is hashed where it stands, after the state that the key's block leads to.
pub fn hmac_sha256(key: &[u8; 32], message: &[u8]) -> [u8; 32]
    ensures { result ≡ hmac_of key.now message.now }
{
    // The octets that the standard's ipad and opad repeat
    let (ipad, opad) = (0x36, 0x5c);
    let inner = finish(compress(INITIAL, &keyed_block(key, ipad)), 64, message);
    finish(compress(INITIAL, &keyed_block(key, opad)), 64, &inner)
}
