// Work files, read: what a line asks for, and every line of a file before any of it is carried out.
#![tactic(auto)]

pub mod commands;
pub mod faults;
pub mod reading;
