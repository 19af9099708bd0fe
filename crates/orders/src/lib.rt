//! The order of the writes of a location.
#![tactic(auto)]

pub mod order;
