//! SHA-256 under a name that C and Rust can call: for the benchmark alone.
#![tactic(auto)]

ghost use Rattle.std.specs.Prelude.{◌≡◌};
ghost use Rattle.digest.specs.Sha256.{sha256 as hash_of};

use digest::sha256;

// Writes the digest of a message to `out`.
#[unsafe(no_mangle)]
pub extern "C" fn digest_sha256(message: &[u8], out: &mut [u8; 32])
    ensures { out.new ≡ hash_of message.now }
{
    *out = sha256(message);
}
