// Elements that stand in runs: one walk for every kind of them, and names as a kind.
#![tactic(auto)]

pub mod names;
pub mod walk;
