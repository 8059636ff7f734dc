//! The parts of a text between the places where a separator stands.
#![tactic(auto)]

ghost use Rattle.std.specs.Prelude.{◌≡◌, ◌+◌, ◌<◌, ◌≤◌, ◌^◌, drop, length, slice_get};
ghost use Rattle.std.specs.Iterator.{item_count, YieldsFirstRef};
ghost use Rattle.std.specs.Option.{option_copied};
ghost use Rattle.base.specs.Bytes.{b};
ghost use Rattle.path.specs.Forms.{among};
ghost use Rattle.split.specs.Split.{first_part, split, separator_bytes};

use std::marker::Model;

/// What stands between two parts.
#[derive(Clone, Copy, PartialEq, Eq)]
pub enum Separator {
    /// `.`, as in a full name.
    Dot,
    /// `::`, as in a Rust path.
    Colons,
    /// A blank, as in a list of words.
    Blank,
}

impl Separator {
    /// Its bytes.
    fn bytes(self) -> &'static [u8]
        ensures bytes { result.now ≡ separator_bytes self }
        ensures some { 0 < length result.now }
    {
        match self {
            Separator::Dot => b".",
            Separator::Colons => b"::",
            Separator::Blank => b" ",
        }
    }
}

/// Where the first part ends.
#[tactic(auto, using(crate::proofs::SplitLaws::part_ends_here))]
pub fn part_end(s: &[u8], separator: &[u8]) -> usize
    ensures { result ≡ first_part separator.now s.now }
{
    // no `windows`: it asks for a separator that isn't empty, and this function asks nothing
    if let [byte] = separator {
        return s.iter().position(|own| own == byte).unwrap_or(s.len());
    }
    // tried by `find` over the places, which misses the bar that no text call gets slower: descriptor.proto's takes 1.3 percent more
    // instructions
    for i in 0..s.len() {
        if s[i..].starts_with(separator) {
            return i;
        }
    }
    s.len()
}

/// The parts that are left.
#[derive(Drop)]
pub struct Parts<'a> {
    rest: Option<&'a [u8]>,
    separator: &'a [u8],
}

impl<'a> Model for Parts<'a> {
    ghost use Rattle.std.specs.Prelude.{◌<◌, List, length, ℕ};
    ghost use Rattle.std.specs.Option.{option_copied};
    ghost use Rattle.split.specs.Split.{parts_left};

    ghost Value = { List (List ℕ) };

    ghost view = { λ p. parts_left p.separator.now (option_copied p.rest) };

    ghost invariant = { λ p. 0 < length p.separator.now };
}

impl<'a> Parts<'a> {
    /// All parts of a text.
    #[tactic(auto, using(crate::proofs::SplitLaws::split_length))]
    pub fn new(s: &'a [u8], separator: Separator) -> Self
        ensures parts { result ≡ split (separator_bytes separator) s.now }
        ensures bound { length result ≤ length s.now + 1 }
    {
        Parts {
            rest: Some(s),
            separator: separator.bytes(),
        }
    }
}

impl<'a> Iterator for Parts<'a> {
    type Item = &'a [u8];

    ghost next_gives = { YieldsFirstRef (λ rest. rest) };

    ghost remaining = { item_count (λ rest. rest) };

    #[tactic(auto, using(crate::proofs::SplitLaws::end_inside))]
    fn next(&mut self) -> Option<&'a [u8]> {
        let rest = self.rest?;
        let end = part_end(rest, self.separator);
        self.rest = rest.get(end + self.separator.len()..);
        Some(&rest[..end])
    }
}

// No code calls these two now: they stand with their promises.

/// Is x one of the words of s, with blanks between them?
pub fn is_word(s: &[u8], x: &[u8]) -> bool
    ensures { result ≡ among x.now (split (b " ") s.now) }
{
    Parts::new(s, Separator::Blank).any(|word| x == word)
}

/// Word j of s.
pub fn word(s: &[u8], j: usize) -> Option<&[u8]>
    ensures { option_copied result ≡ slice_get (split (b " ") s.now) j }
{
    Parts::new(s, Separator::Blank).nth(j)
}
