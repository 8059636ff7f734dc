//! The bytes of a text with C's escapes.

ghost use Rattle.std.specs.Prelude.{◌≡◌};
ghost use Rattle.std.specs.Iterator.{YieldsFirst, item_count};
ghost use Rattle.c_escaping.specs.Results.{unescape_results};

use std::marker::Model;

/// What stands at a place is no escape.
#[derive(Clone, Copy, PartialEq, Eq)]
pub struct BadEscape;

/// The bytes of a text in order, and at last an error where what stands there is no escape.
#[derive(Drop)]
pub struct Unescape<'a> {
    text: &'a [u8],
    at: usize,
}

impl<'a> Model for Unescape<'a> {
    ghost use Rattle.std.specs.Prelude.{List, ℕ, Result};
    ghost use Rattle.c_escaping.specs.declared.bytes.BadEscape.{BadEscape};
    ghost use Rattle.c_escaping.specs.Unescape.{unescape_from};
    ghost use Rattle.c_escaping.specs.Results.{results};

    ghost Value = { List (Result ℕ BadEscape) };

    ghost view = { λ s. results (unescape_from s.text.now s.at) };
}

impl<'a> Unescape<'a> {
    /// The bytes of `text`.
    pub fn new(text: &'a [u8]) -> Self
        ensures { result ≡ unescape_results text.now }
    {
        Unescape { text, at: 0 }
    }
}

impl<'a> Iterator for Unescape<'a> {
    type Item = Result<u8, BadEscape>;

    ghost next_gives = { YieldsFirst (λ rest. rest) };

    ghost remaining = { item_count (λ rest. rest) };

    #[tactic(auto, using(crate::proofs::ResultLaws::laws))]
    fn next(&mut self) -> Option<Result<u8, BadEscape>> {
        if self.at >= self.text.len() {
            return None;
        }
        match crate::unescape_at(self.text, self.at) {
            Some((byte, next)) => {
                self.at = next;
                Some(Ok(byte))
            }
            None => {
                self.at = self.text.len();
                Some(Err(BadEscape))
            }
        }
    }
}
