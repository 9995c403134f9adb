// What extensions tell: reasons, what an extension is by its identifier, and what several tell together.
#![tactic(auto)]

pub mod reason;
pub mod role;
pub mod told;
