//! The compression function of SHA-256 (FIPS 180-4, section 6.2.2): the state after one block.
//! How it is made fast is known to this crate alone.
#![tactic(auto)]

mod block;
mod constants;
mod load;
mod rounds;
mod schedule;
mod words;

pub use self::block::compress;
