//! A message is read by its records, one after the other.
ghost use Rattle.std.specs.Prelude.{◌≡◌};
ghost use Rattle.wire.specs.Encoding.{Field};
ghost use Rattle.wire.specs.Message.{record_seen};
ghost use Rattle.descriptor.specs.Decode.{entries};
ghost use Rattle.descriptor.specs.Steps.{after};

use wire::records::{Record, Records};

/// What the records of a message are counted into.
pub trait TakeRecord<'a> {
    ghost step: { Self → Field → Self };

    /// Takes what the record says in the place of what was known before.
    fn take(&mut self, next: Record<'a>)
        ensures { self.new ≡ step self.old (record_seen next.entry).field };
}

/// What was known, with what the message says in its place.
#[tactic(auto, unfolding(crate::specs::Steps::after, wire::specs::Message::fields_in), using(crate::proofs::EntriesLaws::entries_read))]
pub fn read_into<'a, T: TakeRecord<'a>>(known: &mut T, part: &'a [u8])
    ensures { known.new ≡ after T.step known.old (entries part.now) }
{
    for record in Records::new(part, 0) {
        if let Ok(record) = record {
            known.take(record);
        }
    }
}

/// What the message says alone.
#[inline(always)]
pub fn described<'a, T: TakeRecord<'a> + Default>(part: &'a [u8]) -> T
    ensures { (none : T) × T.is_default none × (result ≡ after T.step none (entries part.now)) }
{
    let mut known = T::default();
    read_into(&mut known, part);
    known
}
