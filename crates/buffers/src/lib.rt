//! A thread's store buffer: the plain stores that it has issued and that have not reached memory yet, the oldest first.
#![tactic(auto)]

pub mod buffer;
pub mod moves;
#[cfg(test)]
mod tests;
