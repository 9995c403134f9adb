// Work files, carried out: what is said of each command, and where that is printed. The programs above are thin.
#![tactic(auto)]

pub mod carrying;
pub mod running;
pub mod writing;
