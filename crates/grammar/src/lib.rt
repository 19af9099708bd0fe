//! What a program text means: the table of statements, when a text spells a program, and why one is refused.
#![tactic(auto)]

pub mod kinds;
