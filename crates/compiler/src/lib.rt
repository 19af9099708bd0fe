//! The compiler: a program and a mapping give code.
#![tactic(auto)]

pub mod code;
pub mod notation;
pub mod parts;
mod translate;

pub use translate::compile;
