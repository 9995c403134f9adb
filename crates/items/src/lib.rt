// Items: a tag, a length and a content.
#![tactic(auto)]

pub mod header;
pub mod item;
