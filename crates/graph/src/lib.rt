//! Execution graphs: events, the source of each read, and for each location the order of its writes.
#![tactic(auto)]

mod check;
pub mod facts;
pub mod graph;
pub mod parts;
