// Elements that can be written too: what is written reads back as the element.
#![tactic(auto)]

pub mod entries;
pub mod extensions;
pub mod kinds;
