// The reader of DER: octets, item by item.
#![tactic(auto)]

pub mod reader;
