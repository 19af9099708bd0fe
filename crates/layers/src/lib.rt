//! Layers that save fences, over any mapping.
#![tactic(auto)]

pub mod exchange;
pub mod sparing;
