//! Relations between events, as rows of bits.
#![tactic(auto)]

pub mod closure;
pub mod questions;
pub mod rows;
