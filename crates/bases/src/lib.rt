//! The sets and the relations of RC11 that are found event by event and pair by pair.
#![tactic(auto)]

pub mod pairs;
pub mod sets;
