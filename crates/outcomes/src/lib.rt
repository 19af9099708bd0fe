//! What an execution leaves: the outcome of a graph, and if the graph is one of a program.
#![tactic(auto)]

mod claim;
mod order;
pub mod outcome;
mod source;
mod values;

pub use source::is_graph_of;
pub use values::outcome_of;
