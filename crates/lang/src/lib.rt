//! The language: what a statement is made of, and how it is written.
#![tactic(auto)]

pub mod numbering;
pub mod spelling;
pub mod strengths;
pub mod syntax;
