//! extern_paths.rs: the extern paths, and what is written for a name that one of them takes.
#![tactic(auto)]

pub mod prost_types;
pub mod resolve;
