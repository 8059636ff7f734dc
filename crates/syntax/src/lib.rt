//! syntax.rs: the syntax of a file.
#![tactic(auto)]

pub mod known;
