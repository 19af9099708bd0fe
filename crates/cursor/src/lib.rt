//! A cursor over a program text, which hands out words with their offsets and reads statements from them.
#![tactic(auto)]

mod scan;
mod statements;
pub mod text;
mod words;
