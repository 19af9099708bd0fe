//! Mappings that are put together from words.
#![tactic(auto)]

pub mod names;
pub mod pile;
mod placing;
