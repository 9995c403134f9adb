// Who may say that a list is genuine.
#![tactic(auto)]

pub mod verifier;
