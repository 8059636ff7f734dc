//! The characters of a text.

ghost use Rattle.std.specs.Prelude.{◌≡◌};
ghost use Rattle.std.specs.Iterator.{YieldsFirst, item_count};
ghost use Rattle.utf8.specs.Utf8.{chars};

use crate::Decoded;
use std::marker::Model;

/// The characters of a text in order, up to the first fault if there is one.
#[derive(Drop)]
pub struct Chars<'a> {
    bytes: &'a [u8],
    at: usize,
}

impl<'a> Model for Chars<'a> {
    ghost use Rattle.std.specs.Prelude.{List, ℕ};
    ghost use Rattle.base.specs.Steps.{items};
    ghost use Rattle.utf8.specs.Utf8.{chars_from};

    ghost Value = { List ℕ };

    ghost view = { λ s. items (chars_from s.bytes.now s.at) };
}

impl<'a> Chars<'a> {
    /// The characters of `bytes`.
    pub fn new(bytes: &'a [u8]) -> Self
        ensures { result ≡ chars bytes.now }
    {
        Chars { bytes, at: 0 }
    }
}

impl<'a> Iterator for Chars<'a> {
    type Item = u32;

    ghost next_gives = { YieldsFirst (λ rest. rest) };

    ghost remaining = { item_count (λ rest. rest) };

    #[tactic(auto, using(crate::proofs::CharLaws::laws))]
    fn next(&mut self) -> Option<u32> {
        let Decoded::Character(c, next) = crate::char_at(self.bytes, self.at) else {
            self.at = self.bytes.len();
            return None;
        };
        self.at = next;
        Some(c)
    }
}
