//! The records of a message, one after the other.
ghost use Rattle.std.specs.Prelude.{◌≡◌, ◌+◌, ◌-◌, ◌<◌, ◌≤◌, ◌^◌, length};
ghost use Rattle.std.specs.Iterator.{item_count, YieldsFirstBy};
ghost use Rattle.wire.specs.Message.{records_at, seen};

use crate::read::read_record;
use std::marker::Model;

pub mod record;

pub use record::{Fault, Record, Value};

/// The records of a message that are left. A fault is the last.
#[derive(Drop)]
pub struct Records<'a> {
    rest: &'a [u8],
    at: usize,
}

impl<'a> Model for Records<'a> {
    ghost use Rattle.std.specs.Prelude.{◌+◌, ◌<◌, ◌^◌, List, Result, length};
    ghost use Rattle.wire.specs.declared.records.record.Fault.{Fault};
    ghost use Rattle.wire.specs.Message.{Entry, records_at};

    ghost Value = { List (Result Entry Fault) };

    ghost view = { λ s. records_at s.at s.rest.now };

    ghost invariant = { λ s. s.at + length s.rest.now < 2 ^ 64 };
}

impl<'a> Records<'a> {
    /// The records of a message whose first byte stands at `at`. Where the last byte's place would not fit a `usize`, the
    /// message stands at the last place where it does.
    #[tactic(auto, using(crate::proofs::MessageLaws::records_bound))]
    #[inline(always)]
    pub fn new(part: &'a [u8], at: usize) -> Self
        ensures records { at + length part.now < 2 ^ 64 → result ≡ records_at at part.now }
        ensures last { 2 ^ 64 ≤ at + length part.now → result ≡ records_at (2 ^ 64 - 1 - length part.now) part.now }
        ensures bound { length result ≤ length part.now }
    {
        let last = usize::MAX - part.len();
        Records {
            rest: part,
            at: at.min(last),
        }
    }
}

impl<'a> Iterator for Records<'a> {
    type Item = Result<Record<'a>, Fault>;

    ghost next_gives = { YieldsFirstBy seen (λ rest. rest) };

    ghost remaining = { item_count (λ rest. rest) };

    #[tactic(auto, using(crate::proofs::MessageLaws::laws))]
    #[inline(always)]
    fn next(&mut self) -> Option<Self::Item> {
        if self.rest.is_empty() {
            return None;
        }
        let key = self.at;
        match read_record(self.rest, key) {
            Some((record, rest)) => {
                self.at += self.rest.len() - rest.len();
                self.rest = rest;
                Some(Ok(record))
            }
            None => {
                self.rest = &[];
                Some(Err(Fault { key }))
            }
        }
    }
}
