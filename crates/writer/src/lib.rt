//! Text that is written into a lent buffer.
#![tactic(auto)]

mod text;

pub use text::Text;
