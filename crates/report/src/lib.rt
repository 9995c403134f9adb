// What the program says of a command, as one enum, and how that reads as plain text. Nothing here reads a work file or
// knows a register: it prints what it is handed.
#![tactic(auto)]

mod lists;
pub mod said;
mod values;
