// Writing items into lent memory.
#![tactic(auto)]

pub mod put;
