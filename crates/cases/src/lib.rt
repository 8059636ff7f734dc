//! What the programs share that compare recorded answers: the tally of the cases, lists and packs of cases, bytes in hex, and answers
//! as field numbers.
#![tactic(auto)]

pub mod code;
pub mod compare;
pub mod hex;
pub mod lines;
pub mod pack;
pub mod tally;

pub use code::code_of;
pub use compare::{compare_all, compare_lines, compare_pack};
pub use hex::decode_hex;
pub use lines::Lines;
pub use pack::{Case, Pack};
pub use tally::{MOST, Tally};
pub use wire::records::Fault;
