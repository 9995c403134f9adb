// Entries of a revocation list.
#![tactic(auto)]

pub mod entries;
pub mod times;
