//! The verdict of RC11 on a graph, and the number of its hb pairs.
#![tactic(auto)]

mod base;
mod derived;
mod verdicts;

pub use verdicts::{happens_before, hb_pairs, verdict};
