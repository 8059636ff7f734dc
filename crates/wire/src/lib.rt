//! The Protocol Buffers encoding: varints, and the records (key and payload) of a message. A message is its bytes.
#![tactic(auto)]

mod read;
pub mod records;
