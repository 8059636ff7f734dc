//! Where embedded messages lie in a set.
#![tactic(auto)]

ghost use Rattle.std.specs.Prelude.{◌≡◌, ◌≤◌, length};
ghost use Rattle.std.specs.Iterator.{item_count, YieldsFirst};
ghost use Rattle.declarations.specs.Rows.{places};

use descriptor::bytes_in;
use std::marker::Model;
use wire::records::Records;

/// Where the bytes of a message lie in a set.
#[derive(Clone, Copy, Default)]
pub struct Place {
    pub start: usize,
    pub end: usize,
}

/// The places of the embedded messages with one field number that are left.
// parts' `Parts` with another item: that gives the bytes, this where they lie. A type parameter would only choose that.
#[derive(Drop)]
pub struct Places<'a> {
    records: Records<'a>,
    number: u64,
}

impl<'a> Model for Places<'a> {
    ghost use Rattle.std.specs.Prelude.{List};
    ghost use Rattle.declarations.specs.Places.{places_in};
    ghost use Rattle.declarations.specs.declared.places.Place.{Place};

    ghost Value = { List Place };

    ghost view = { λ s. places_in s.number s.records };
}

impl<'a> Places<'a> {
    /// Those of the message at a place of the set. An embedded message of another wire type has no bytes.
    #[tactic(auto, using(crate::proofs::PlaceLaws::places_read, crate::proofs::PlaceLaws::places_bound, crate::proofs::PlaceLaws::part_within))]
    pub fn new(set: &'a [u8], part: Place, number: u64) -> Self
        ensures places { result ≡ places set.now number part }
        ensures bound { length result ≤ length set.now }
    {
        let bytes = descriptor::part_of(set, part.start, part.end);
        Places {
            records: Records::new(bytes, part.start),
            number,
        }
    }
}

impl<'a> Iterator for Places<'a> {
    type Item = Place;

    ghost next_gives = { YieldsFirst (λ rest. rest) };

    ghost remaining = { item_count (λ rest. rest) };

    #[tactic(auto, unfolding(crate::specs::Places::places_in, base::specs::Choose::choose))]
    fn next(&mut self) -> Option<Place> {
        let number = self.number;
        let record = self
            .records
            .find(|record| record.is_ok_and(|record| record.number == number))?
            .ok()?;
        Some(Place {
            start: record.start,
            end: record.start + bytes_in(record.value).len(),
        })
    }
}
