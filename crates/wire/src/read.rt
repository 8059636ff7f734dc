//! Reads one record.
ghost use Rattle.std.specs.Prelude.{◌≡◌, ℕ, ◌+◌, ◌≤◌, ◌<◌, ◌^◌, List, length, IfSome};
ghost use Rattle.std.specs.Option.{option_map};
ghost use Rattle.wire.specs.Readers.{groups, varint, cap, cut, payload};
ghost use Rattle.wire.specs.Encoding.{len_value};
ghost use Rattle.wire.specs.Value.{value_seen, size_of};
ghost use Rattle.wire.specs.Message.{Entry, record_at, record_seen};

use crate::records::{Record, Value};

// Bytes, and where they stand: `Records` holds both with the bound, and these functions read for it.

/// The record at the front, whose key stands at `key`, and the bytes after it.
#[inline(always)]
pub(crate) fn read_record(bytes: &[u8], key: usize) -> Option<(Record<'_>, &[u8])>
    requires { key + length bytes.now < 2 ^ 64 }
    ensures { option_map (λ r. (record_seen r.0, r.1.now)) result ≡ record_at key bytes.now }
{
    read_short(bytes, key).or_else(|| read_any(bytes, key))
}

/// The record at the front, if its key has one byte, and its value or its length one byte too, as most have.
#[tactic(auto, unfolding(crate::specs::Message::record_at, crate::specs::Readers::payload, crate::specs::Readers::cut, crate::specs::Readers::varint, crate::specs::Readers::groups))]
#[inline(always)]
fn read_short(bytes: &[u8], key: usize) -> Option<(Record<'_>, &[u8])>
    requires { key + length bytes.now < 2 ^ 64 }
    ensures { IfSome result (λ r. record_at key bytes.now ≡ Some (record_seen r.0, r.1.now)) }
{
    let (tag, from) = bytes.split_first()?;
    let (next, rest) = from.split_first()?;
    let number = u64::from(*tag / 8);
    if *tag >= 128 || number == 0 || *next >= 128 {
        return None;
    }
    if *tag % 8 == 2 {
        short_bytes(key, number, *next, rest)
    } else if *tag % 8 == 0 {
        let value = Value::Varint(u64::from(*next));
        let start = key + 1;
        Some((
            Record {
                key,
                number,
                value,
                start,
            },
            rest,
        ))
    } else {
        None
    }
}

/// The record whose key and length have one byte each, and whose bytes are the first `len`.
#[tactic(auto, unfolding(crate::specs::Readers::cut))]
#[inline(always)]
fn short_bytes(key: usize, number: u64, len: u8, rest: &[u8]) -> Option<(Record<'_>, &[u8])>
    requires { key + 2 + length rest.now < 2 ^ 64 }
    ensures { option_map (λ r. (record_seen r.0, r.1.now)) result ≡ option_map {U = Entry × List ℕ} (λ v. (record { key = key; field = record { number = number; value = len_value v.0 }; start = key + 2 }, v.1)) (cut len rest.now) }
{
    let (inner, rest) = rest.split_at_checked(usize::from(len))?;
    let value = Value::Len(inner);
    let start = key + 2;
    Some((
        Record {
            key,
            number,
            value,
            start,
        },
        rest,
    ))
}

/// The same, of any record.
#[tactic(auto, unfolding(crate::specs::Message::record_at))]
#[cold]
#[inline(never)]
fn read_any(bytes: &[u8], key: usize) -> Option<(Record<'_>, &[u8])>
    requires { key + length bytes.now < 2 ^ 64 }
    ensures { option_map (λ r. (record_seen r.0, r.1.now)) result ≡ record_at key bytes.now }
{
    let (tag, rest) = read_varint(bytes)?;
    let number = tag / 8;
    if number == 0 {
        return None;
    }
    let (value, from, rest) = read_value(tag % 8, rest)?;
    let start = key + (bytes.len() - from.len());
    Some((
        Record {
            key,
            number,
            value,
            start,
        },
        rest,
    ))
}

/// The value at the front, the bytes from its own on, and those after it.
#[tactic(auto, unfolding(crate::specs::Readers::payload))]
fn read_value(wire_type: u64, bytes: &[u8]) -> Option<(Value<'_>, &[u8], &[u8])>
    ensures value { option_map (λ v. ((value_seen v.0, v.1.now), v.2.now)) result ≡ payload wire_type bytes.now }
    ensures inside { IfSome result (λ v. (size_of v.0 ≤ length v.1.now) × (length v.1.now ≤ length bytes.now)) }
{
    // The numbers are those that stand in the bytes.
    match wire_type {
        0 => {
            let (number, rest) = read_varint(bytes)?;
            Some((Value::Varint(number), bytes, rest))
        }
        1 => {
            let (inner, rest) = split(bytes, 8)?;
            Some((Value::I64(inner), bytes, rest))
        }
        2 => {
            let (len, from) = read_varint(bytes)?;
            let (inner, rest) = split(from, len)?;
            Some((Value::Len(inner), from, rest))
        }
        5 => {
            let (inner, rest) = split(bytes, 4)?;
            Some((Value::I32(inner), bytes, rest))
        }
        _ => None,
    }
}

/// The first `len` bytes, and those after them.
#[tactic(auto, unfolding(crate::specs::Readers::cut))]
fn split(bytes: &[u8], len: u64) -> Option<(&[u8], &[u8])>
    ensures value { option_map (λ p. (p.0.now, p.1.now)) result ≡ cut len bytes.now }
    ensures inside { IfSome result (λ p. length p.0.now + length p.1.now ≡ length bytes.now) }
{
    bytes.split_at_checked(usize::try_from(len).ok()?)
}

/// The varint at the front, and the bytes after it.
///
/// `None` is one that is cut, or over 64 bits.
#[tactic(auto, unfolding(crate::specs::Readers::varint, crate::specs::Readers::groups), using(crate::proofs::Caps::cap_ten))]
fn read_varint(bytes: &[u8]) -> Option<(u64, &[u8])>
    ensures value { option_map (λ v. (v.0, v.1.now)) result ≡ varint bytes.now }
    ensures shorter { IfSome result (λ v. length v.1.now < length bytes.now) }
{
    let (first, rest) = bytes.split_first()?;
    if *first < 128 {
        return Some((u64::from(*first), rest));
    }
    if let Some((second, rest)) = rest.split_first() {
        if *second < 128 {
            return Some((u64::from(*second) * 128 + u64::from(*first % 128), rest));
        }
    }
    read_groups(bytes, 10)
}

/// The groups of a varint, of which at most `left` may follow. Of ten, the last holds one bit.
#[tactic(auto, unfolding(crate::specs::Readers::groups), using(crate::proofs::Caps::caps))]
fn read_groups(bytes: &[u8], left: u32) -> Option<(u64, &[u8])>
    requires { cap left ≤ 2 ^ 64 }
    ensures value { option_map (λ v. (v.0, v.1.now)) result ≡ groups left bytes.now }
    ensures bound { IfSome result (λ v. v.0 < cap left) }
    ensures shorter { IfSome result (λ v. length v.1.now < length bytes.now) }
{
    if left == 0 {
        return None;
    }
    let (first, rest) = bytes.split_first()?;
    if *first < 128 {
        if left == 1 && *first > 1 {
            return None;
        }
        return Some((u64::from(*first), rest));
    }
    let (high, rest) = read_groups(rest, left - 1)?;
    Some((high * 128 + u64::from(*first % 128), rest))
}
