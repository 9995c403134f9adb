// Signature algorithms of lists.
#![tactic(auto)]

pub mod identifiers;
