// The revocation list: read exactly where the octets are one in the profile.
#![tactic(auto)]

pub mod each;
pub mod read;
