//! What all crates share: a test of two byte strings, and a byte by its index.
#![tactic(auto)]

ghost use Rattle.std.specs.Prelude.{◌≡◌, get_or};
ghost use Rattle.base.specs.Bytes.{same};

pub mod refusal;

/// The byte at `i`, and 0 past the end.
pub fn byte_at(s: &[u8], i: usize) -> u8
    ensures { result ≡ get_or s.now i 0 }
{
    s.get(i).copied().unwrap_or(0)
}

/// Whether these are the same bytes.
// No code calls it now: it stands with its promise.
#[tactic(auto, unfolding(crate::specs::Bytes::same))]
pub fn same_bytes(x: &[u8], y: &[u8]) -> bool
    ensures { result ≡ same x.now y.now }
{
    x == y
}
