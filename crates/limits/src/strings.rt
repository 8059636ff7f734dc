//! Strings of a message.
ghost use Rattle.std.specs.Prelude.{◌≡◌, ◌≤◌, length};
ghost use Rattle.limits.specs.Weights.{text_bytes, long_segment};

use crate::limit::MAX_NAME;
use parts::Parts;

/// The bytes of a string by its field number: of several the last counts, without one there are none.
pub fn text(part: &[u8], number: u64) -> &[u8]
    ensures text { result.now ≡ text_bytes number part.now }
    ensures bound { length result.now ≤ length part.now }
{
    Parts::new(part, number).last().unwrap_or_default()
}

/// Is a segment of a package too long?
#[tactic(auto, using(crate::proofs::TextLaws::split_segments))]
pub fn long_segment(name: &[u8]) -> bool
    ensures { result ≡ long_segment name.now }
{
    name.split(|&byte| byte == b'.')
        .any(|segment| segment.len() > MAX_NAME)
}
