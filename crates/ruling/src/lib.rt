// What taken lists rule on a certificate: how one list rules, and the answer that all rulings give together.
#![tactic(auto)]

pub mod answers;
pub mod cases;
pub mod drawing;
pub mod listing;
