//! What a descriptor makes of a record's value: a text, a number of 32 bits, a flag.
ghost use Rattle.std.specs.Prelude.{◌≡◌, ◌%◌, ◌^◌, not, ◌==◌};
ghost use Rattle.wire.specs.Value.{value_seen};
ghost use Rattle.descriptor.specs.Decode.{bytes_in, number_in, entries};
ghost use Rattle.descriptor.specs.Steps.{after, on, bool};

use wire::records::{Records, Value};

/// The bytes of a value; none of another wire type.
#[inline(always)]
pub fn bytes_in<'a>(value: Value<'a>) -> &'a [u8]
    ensures { result.now ≡ bytes_in (value_seen value.entry) }
{
    match value {
        Value::Len(bytes) => bytes,
        _ => &[],
    }
}

#[inline(always)]
fn varint_in(value: Value<'_>) -> u64
    ensures { result ≡ number_in (value_seen value.entry) }
{
    match value {
        Value::Varint(number) => number,
        _ => 0,
    }
}

/// The low 32 bits of a number, in two's complement where it is signed; 0 of another wire type.
#[inline(always)]
pub fn number_in(value: Value<'_>) -> u32
    ensures { result ≡ number_in (value_seen value.entry) % 2 ^ 32 }
{
    // a cast: below 2^32, and a `u32` has no `From` of a `u64`
    (varint_in(value) % (1 << 32)) as u32
}

#[inline(always)]
pub fn flag_in(value: Value<'_>) -> bool
    ensures { result ≡ not (number_in (value_seen value.entry) == 0) }
{
    varint_in(value) != 0
}

/// The flag with the field number in a message; where it has none, what it was.
#[tactic(auto, unfolding(crate::specs::Steps::after, wire::specs::Message::fields_in), using(crate::proofs::EntriesLaws::entries_read))]
pub fn flag_after(part: &[u8], number: u64, was: bool) -> bool
    ensures { result ≡ after (on number bool) was (entries part.now) }
{
    let mut flag = was;
    for record in Records::new(part, 0) {
        if let Ok(record) = record
            && record.number == number
        {
            flag = flag_in(record.value);
        }
    }
    flag
}
