//! Memory: what each location holds, and the order in which writes reached it.
#![tactic(auto)]

pub mod loads;
pub mod memory;
pub mod moves;
#[cfg(test)]
mod tests;
