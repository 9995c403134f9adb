// The revocation list, read front to back out of the caller's octets.
#![tactic(auto)]

pub mod signed;
