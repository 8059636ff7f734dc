//! UTF-8: the character at a place.
#![tactic(auto)]

ghost use Rattle.std.specs.Prelude.{◌≡◌, get_or};
ghost use Rattle.utf8.specs.Utf8.{between, second_low, second_high, second, later, two, three, four, char_at};

mod chars;

pub use chars::Chars;

/// What decoding at a place finds: a character with the place behind it, or none.
// An enum, where Rust has an `Option`: document 01 asks for the step to be opened by `let .. else` on the variants of an enum.
#[derive(Clone, Copy, PartialEq, Eq)]
pub enum Decoded {
    Character(u32, usize),
    Fault,
}

/// The byte at `i`, and 0 past the end.
fn byte(s: &[u8], i: usize) -> u32
    ensures { result ≡ get_or s.now i 0 }
{
    u32::from(base::byte_at(s, i))
}

/// Whether `x` lies from `low` to `high`.
#[tactic(auto, unfolding(crate::specs::Utf8::between, base::specs::Choose::choose))]
pub fn between(low: u32, high: u32, x: u32) -> bool
    ensures { result ≡ between low high x }
{
    (low..=high).contains(&x)
}

// The two functions of a second byte's ends are two tables, as their definitions are.

/// The least second byte behind the first byte `a`.
#[tactic(auto, unfolding(crate::specs::Utf8::second_low, base::specs::Choose::choose))]
fn second_low(a: u32) -> u32
    ensures { result ≡ second_low a }
{
    match a {
        0xE0 => 0xA0,
        0xF0 => 0x90,
        _ => 0x80,
    }
}

/// The largest second byte behind the first byte `a`.
#[tactic(auto, unfolding(crate::specs::Utf8::second_high, base::specs::Choose::choose))]
fn second_high(a: u32) -> u32
    ensures { result ≡ second_high a }
{
    match a {
        0xED => 0x9F,
        0xF4 => 0x8F,
        _ => 0xBF,
    }
}

/// Whether `x` can stand behind the first byte `a`.
#[tactic(auto, unfolding(crate::specs::Utf8::second))]
fn second(a: u32, x: u32) -> bool
    ensures { result ≡ second a x }
{
    between(second_low(a), second_high(a), x)
}

/// Whether `x` can be the third or fourth byte.
#[tactic(auto, unfolding(crate::specs::Utf8::later))]
fn later(x: u32) -> bool
    ensures { result ≡ later x }
{
    between(0x80, 0xBF, x)
}

#[tactic(auto, unfolding(crate::specs::Utf8::two, base::specs::Choose::choose))]
fn two(a: u32, x: u32, next: usize) -> Decoded
    ensures { result ≡ two a x next }
{
    if second(a, x) {
        Decoded::Character(a % 32 * 64 + x % 64, next)
    } else {
        Decoded::Fault
    }
}

#[tactic(auto, unfolding(crate::specs::Utf8::three, base::specs::Choose::choose))]
fn three(a: u32, x: u32, y: u32, next: usize) -> Decoded
    ensures { result ≡ three a x y next }
{
    if second(a, x) && later(y) {
        Decoded::Character(a % 16 * 4096 + x % 64 * 64 + y % 64, next)
    } else {
        Decoded::Fault
    }
}

#[tactic(auto, unfolding(crate::specs::Utf8::four, base::specs::Choose::choose))]
fn four(a: u32, x: u32, y: u32, z: u32, next: usize) -> Decoded
    ensures { result ≡ four a x y z next }
{
    if second(a, x) && later(y) && later(z) {
        Decoded::Character(a % 8 * 262144 + x % 64 * 4096 + y % 64 * 64 + z % 64, next)
    } else {
        Decoded::Fault
    }
}

/// The character at the place `i`.
// By places, as the step's definition is: over the bytes that are left, each clause would have to count back to a place.
#[tactic(auto, unfolding(crate::specs::Utf8::char_at, base::specs::Choose::choose))]
pub fn char_at(s: &[u8], i: usize) -> Decoded
    ensures { result ≡ char_at s.now i }
{
    if i >= s.len() {
        return Decoded::Fault;
    }
    let a = byte(s, i);
    match a {
        0..=0x7F => Decoded::Character(a, i + 1),
        0xC2..=0xDF => two(a, byte(s, i + 1), i + 2),
        0xE0..=0xEF => three(a, byte(s, i + 1), byte(s, i + 2), i + 3),
        0xF0..=0xF4 => four(a, byte(s, i + 1), byte(s, i + 2), byte(s, i + 3), i + 4),
        _ => Decoded::Fault,
    }
}
