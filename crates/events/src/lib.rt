//! Events: what each statement of a program does in an execution, and the initial writes.
#![tactic(auto)]

pub mod event;
