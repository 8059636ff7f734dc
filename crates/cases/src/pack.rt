//! A pack of cases.
ghost use Rattle.std.specs.Prelude.{◌≡◌, ◌≤◌, length};
ghost use Rattle.std.specs.Iterator.{item_count, YieldsFirstBy};
ghost use Rattle.cases.specs.Pack.{cases_in, seen};

use std::marker::Model;
use wire::records::{Fault, Records};

/// A case of a pack: the number and the bytes of a field.
#[derive(Clone, Copy, Debug)]
pub struct Case<'a> {
    pub number: u64,
    pub bytes: &'a [u8],
}

/// The cases of a pack that are left. A pack is a message, and a case is a field of it; a fault is the last.
#[derive(Drop)]
pub struct Pack<'a> {
    records: Records<'a>,
}

impl<'a> Model for Pack<'a> {
    ghost use Rattle.std.specs.Prelude.{ℕ, List, Result, map};
    ghost use Rattle.cases.specs.Seen.{SeenCase, case_of};

    ghost Value = { List (Result SeenCase ℕ) };

    ghost view = { λ p. map case_of p.records };
}

impl<'a> Pack<'a> {
    /// The cases of a pack; each takes a byte at least.
    #[tactic(auto, using(crate::proofs::PackLaws::cases_read, crate::proofs::PackLaws::no_more_cases))]
    pub fn new(bytes: &'a [u8]) -> Self
        ensures cases { result ≡ cases_in bytes.now }
        ensures bound { length result ≤ length bytes.now }
    {
        Pack {
            records: Records::new(bytes, 0),
        }
    }
}

impl<'a> Iterator for Pack<'a> {
    type Item = Result<Case<'a>, Fault>;

    ghost next_gives = { YieldsFirstBy seen (λ rest. rest) };

    ghost remaining = { item_count (λ rest. rest) };

    fn next(&mut self) -> Option<Self::Item> {
        let read = self.records.next()?;
        Some(read.map(|record| Case {
            number: record.number,
            bytes: descriptor::bytes_in(record.value),
        }))
    }
}
