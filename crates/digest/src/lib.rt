//! SHA-256 (FIPS 180-4) and HMAC with it (FIPS 198-1), and the comparison of two digests.
#![tactic(auto)]

mod constants;
mod hash;
mod hasher;
mod hmac;
mod pad;
mod same;

pub use self::hash::sha256;
pub use self::hasher::Hasher;
pub use self::hmac::hmac_sha256;
pub use self::same::same_digest;
