// Refusals: grounds, inputs and offsets, and what is shown of a refused input.
#![tactic(auto)]

pub mod grounds;
pub mod show;
