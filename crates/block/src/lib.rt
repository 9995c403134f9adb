// The signed block of a list.
#![tactic(auto)]

pub mod fields;
