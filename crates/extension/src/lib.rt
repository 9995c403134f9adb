// Extensions of lists and of their entries: three are read, told by their identifier octets.
#![tactic(auto)]

pub mod extensions;
pub mod reading;
pub mod value;
