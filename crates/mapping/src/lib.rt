//! What a mapping from statements to x86 is, and the three that are published.
#![tactic(auto)]

pub mod interface;
pub mod kinds;
pub mod placement;
pub mod published;
