//! Bytes in hex, as a list has them.
ghost use Rattle.std.specs.Prelude.{◌≡◌, ◌≤◌, length, take};
ghost use Rattle.std.specs.Iterator.{item_count, YieldsFirst};
ghost use Rattle.cases.specs.Hex.{digit_value, hex_bytes};

use std::marker::Model;

/// What a digit stands for. Each byte stands for something, so that any part of a list has bytes.
#[tactic(auto, unfolding(crate::specs::Hex::digit_value))]
fn digit_value(digit: u8) -> u8
    ensures { result ≡ digit_value digit }
{
    if digit <= b'9' {
        digit % 16
    } else {
        (digit % 16 + 9) % 16
    }
}

/// The bytes that are left, of two digits each; a last digit without another is a byte's upper half.
#[derive(Drop)]
struct HexBytes<'a> {
    digits: &'a [u8],
}

impl<'a> Model for HexBytes<'a> {
    ghost use Rattle.std.specs.Prelude.{ℕ, List};
    ghost use Rattle.cases.specs.Hex.{hex_bytes};

    ghost Value = { List ℕ };

    ghost view = { λ h. hex_bytes h.digits.now };
}

impl<'a> HexBytes<'a> {
    fn new(digits: &'a [u8]) -> Self
        ensures { result ≡ hex_bytes digits.now }
    {
        HexBytes { digits }
    }
}

impl<'a> Iterator for HexBytes<'a> {
    type Item = u8;

    ghost next_gives = { YieldsFirst (λ rest. rest) };

    ghost remaining = { item_count (λ rest. rest) };

    fn next(&mut self) -> Option<u8> {
        let (high, rest) = self.digits.split_first()?;
        let (low, rest) = rest.split_first().unwrap_or((&0, rest));
        self.digits = rest;
        Some(digit_value(*high) * 16 + digit_value(*low))
    }
}

/// Writes the bytes that stand in hex, as many as `room` holds, and returns how many.
fn fill(room: &mut [u8], digits: &[u8]) -> usize
    ensures bytes { take result room.new ≡ take (length room.old) (hex_bytes digits.now) }
    ensures bound { result ≤ length room.new }
{
    let mut bytes = HexBytes::new(digits);
    for (length, place) in room.iter_mut().enumerate() {
        let Some(byte) = bytes.next() else {
            return length;
        };
        *place = byte;
    }
    room.len()
}

/// The bytes that stand in hex, as many as `room` holds.
pub fn decode_hex<'a>(digits: &[u8], room: &'a mut [u8]) -> &'a [u8]
    ensures { result.now ≡ take (length room.old) (hex_bytes digits.now) }
{
    let length = fill(room, digits);
    &room[..length]
}
