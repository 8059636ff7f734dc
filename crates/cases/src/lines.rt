//! The lines of a list, as bytes.
ghost use Rattle.std.specs.Prelude.{◌≡◌, ◌≤◌, length};
ghost use Rattle.std.specs.Iterator.{item_count, YieldsFirstRef};
ghost use Rattle.cases.specs.Lines.{lines};

use std::marker::Model;

/// The lines of a list that are left, each without its `\n`. A `\r` stays, and behind the last `\n` there is no line.
// Not `str::lines`: a list's bytes may be no UTF-8.
#[derive(Drop)]
pub struct Lines<'a> {
    rest: &'a [u8],
}

impl<'a> Model for Lines<'a> {
    ghost use Rattle.std.specs.Prelude.{ℕ, List};
    ghost use Rattle.cases.specs.Lines.{lines};

    ghost Value = { List (List ℕ) };

    ghost view = { λ l. lines l.rest.now };
}

impl<'a> Lines<'a> {
    /// The lines of a list; each takes a byte at least.
    #[tactic(auto, using(crate::proofs::LineLaws::no_more_lines))]
    pub fn new(list: &'a [u8]) -> Self
        ensures lines { result ≡ lines list.now }
        ensures bound { length result ≤ length list.now }
    {
        Lines { rest: list }
    }
}

impl<'a> Iterator for Lines<'a> {
    type Item = &'a [u8];

    ghost next_gives = { YieldsFirstRef (λ rest. rest) };

    ghost remaining = { item_count (λ rest. rest) };

    fn next(&mut self) -> Option<&'a [u8]> {
        if self.rest.is_empty() {
            return None;
        }
        let end = self.rest.iter().position(|byte| *byte == b'\n');
        let end = end.unwrap_or(self.rest.len());
        let line = &self.rest[..end];
        self.rest = self.rest.get(end + 1..).unwrap_or(&[]);
        Some(line)
    }
}
