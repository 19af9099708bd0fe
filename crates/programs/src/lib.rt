//! Threads and programs, with their limits as invariants of one type.
#![tactic(auto)]

pub mod bounded;
pub mod parts;
pub mod threads;
