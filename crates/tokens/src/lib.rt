// The bottom layer of the program: the lines of a text, the words of a line, and the octets that a word of hex digits
// writes. Nothing here knows a command.
#![tactic(auto)]

pub mod hex;
pub mod lines;
mod runs;
pub mod words;
