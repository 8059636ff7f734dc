//! The embedded messages of a message, by their field number.
#![tactic(auto)]

ghost use Rattle.std.specs.Prelude.{◌≡◌, ◌≤◌, length};
ghost use Rattle.std.specs.Iterator.{item_count, YieldsFirstRef};
ghost use Rattle.descriptor.specs.Decode.{entries, parts};

use std::marker::Model;
use wire::records::Records;

/// The embedded messages with one field number that are left, as bytes.
#[derive(Drop)]
pub struct Parts<'a> {
    records: Records<'a>,
    number: u64,
}

impl<'a> Model for Parts<'a> {
    ghost use Rattle.std.specs.Prelude.{List, ℕ};
    ghost use Rattle.wire.specs.Message.{fields_in};
    ghost use Rattle.descriptor.specs.Decode.{parts};

    ghost Value = { List (List ℕ) };

    ghost view = { λ s. parts s.number (fields_in s.records) };
}

impl<'a> Parts<'a> {
    /// The embedded messages of `part` with the field number. A record with that number and another wire type counts
    /// as one without bytes.
    #[tactic(auto, using(descriptor::proofs::EntriesLaws::entries_read, crate::proofs::Fields::parts_bound))]
    pub fn new(part: &'a [u8], number: u64) -> Self
        ensures parts { result ≡ parts number (entries part.now) }
        ensures bound { length result ≤ length part.now }
    {
        Parts {
            records: Records::new(part, 0),
            number,
        }
    }
}

impl<'a> Iterator for Parts<'a> {
    type Item = &'a [u8];

    ghost next_gives = { YieldsFirstRef (λ rest. rest) };

    ghost remaining = { item_count (λ rest. rest) };

    #[tactic(auto, unfolding(descriptor::specs::Decode::parts, wire::specs::Message::fields_in, base::specs::Choose::choose))]
    #[inline(always)]
    fn next(&mut self) -> Option<&'a [u8]> {
        // tried by `find`, which is not inlined and misses the bar that no text call gets slower: that of 2,048 fields takes 6 percent more
        // instructions
        while let Some(record) = self.records.next() {
            if let Ok(record) = record
                && record.number == self.number
            {
                return Some(descriptor::bytes_in(record.value));
            }
        }
        None
    }
}

/// How many embedded messages with this field number there are.
pub fn count_parts(s: &[u8], number: u64) -> usize
    ensures { result ≡ length (parts number (entries s.now)) }
{
    Parts::new(s, number).count()
}
