//! RC11 as a page of definitions: the relations of an execution graph, the four rules, and what a verdict is. Proved here: the rules as they are
//! computed are the rules as they are stated.
#![tactic(auto)]

pub mod verdict;
