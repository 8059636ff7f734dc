//! The bytes of a bytes default, which stand in it with C's escapes (c_escaping.rs).
#![tactic(auto)]

ghost use Rattle.std.specs.Prelude.{◌≡◌, ◌+◌, ◌-◌, ◌≤◌, length, get_or};
ghost use Rattle.writer.specs.Writing.{◌▻◌};
ghost use Rattle.literal.specs.Escape.{escape_bytes};
ghost use Rattle.c_escaping.specs.Unescape.{byte_of, letter, is_octal, octal_at, is_hex, hex_value, hex_at, escape_at, unescape_at, unescapes, unescaped};

mod bytes;

pub use bytes::{BadEscape, Unescape};
use writer::Text;

/// A value that fits a byte, with the place behind it.
#[tactic(auto, unfolding(crate::specs::Unescape::byte_of, base::specs::Choose::choose))]
fn byte_of(v: u32, next: usize) -> Option<(u8, usize)>
    ensures { result ≡ byte_of v next }
{
    u8::try_from(v).ok().map(|byte| (byte, next))
}

/// The byte that an escape of one letter stands for, with the place behind it.
// Its letters are of C's escapes. Those of Rust's, which literal's `form_of` writes, are others.
#[tactic(auto, unfolding(crate::specs::Unescape::letter, base::specs::Choose::choose))]
fn letter(c: u8, next: usize) -> Option<(u8, usize)>
    ensures { result ≡ letter c next }
{
    let byte = match c {
        b'a' => 0x07,
        b'b' => 0x08,
        b'f' => 0x0C,
        b'n' => b'\n',
        b'r' => b'\r',
        b't' => b'\t',
        b'v' => 0x0B,
        b'\\' | b'?' | b'\'' | b'"' => c,
        _ => return None,
    };
    Some((byte, next))
}

/// Is it an octal digit?
#[tactic(auto, unfolding(crate::specs::Unescape::is_octal, utf8::specs::Utf8::between, base::specs::Choose::choose))]
fn is_octal(c: u8) -> bool
    ensures { result ≡ is_octal c }
{
    matches!(c, b'0'..=b'7')
}

/// What an octal digit stands for.
fn octal_value(c: u8) -> u32
    ensures { result ≡ c - 48 }
{
    u32::from(c.saturating_sub(b'0'))
}

/// One to three octal digits, from the place `p` on.
// By places, as the steps below: specs/Unescape defines each step by a place and the place behind it. Over the bytes that are left,
// each clause would have to count back to a place.
#[tactic(auto, unfolding(crate::specs::Unescape::octal_at, base::specs::Choose::choose))]
fn octal_at(s: &[u8], p: usize) -> Option<(u8, usize)>
    requires { p ≤ length s.now }
    ensures { result ≡ octal_at s.now p }
{
    let x = octal_value(base::byte_at(s, p));
    let c = base::byte_at(s, p + 1);
    if !is_octal(c) {
        return byte_of(x, p + 1);
    }
    let y = x * 8 + octal_value(c);
    let d = base::byte_at(s, p + 2);
    if !is_octal(d) {
        return byte_of(y, p + 2);
    }
    byte_of(y * 8 + octal_value(d), p + 3)
}

/// Is it a hexadecimal digit?
#[tactic(auto, unfolding(crate::specs::Unescape::is_hex, utf8::specs::Utf8::between, base::specs::Choose::choose))]
fn is_hex(c: u8) -> bool
    ensures { result ≡ is_hex c }
{
    c.is_ascii_hexdigit()
}

/// What a hexadecimal digit stands for.
#[tactic(auto, unfolding(crate::specs::Unescape::hex_value, base::specs::Choose::choose))]
fn hex_value(c: u8) -> u8
    ensures { result ≡ hex_value c }
{
    match c {
        ..=b'9' => c.saturating_sub(b'0'),
        ..=b'F' => c.saturating_sub(b'A' - 10),
        _ => c.saturating_sub(b'a' - 10),
    }
}

/// Two hexadecimal digits, from the place `p` on.
#[tactic(auto, unfolding(crate::specs::Unescape::hex_at, base::specs::Choose::choose))]
fn hex_at(s: &[u8], p: usize) -> Option<(u8, usize)>
    requires { p ≤ length s.now + 1 }
    ensures { result ≡ hex_at s.now p }
{
    let c = base::byte_at(s, p);
    let d = base::byte_at(s, p + 1);
    if is_hex(c) && is_hex(d) {
        byte_of(
            u32::from(hex_value(c)) * 16 + u32::from(hex_value(d)),
            p + 2,
        )
    } else {
        None
    }
}

/// An escape whose `\` stands before `p`.
#[tactic(auto, unfolding(crate::specs::Unescape::escape_at, base::specs::Choose::choose))]
fn escape_at(s: &[u8], p: usize) -> Option<(u8, usize)>
    requires { p ≤ length s.now }
    ensures { result ≡ escape_at s.now p }
{
    let c = base::byte_at(s, p);
    if is_octal(c) {
        octal_at(s, p)
    } else if matches!(c, b'x' | b'X') {
        hex_at(s, p + 1)
    } else {
        letter(c, p + 1)
    }
}

/// The byte that stands at `p`, as it is or as an escape, with the place behind it.
#[tactic(auto, unfolding(crate::specs::Unescape::unescape_at, base::specs::Choose::choose))]
pub fn unescape_at(s: &[u8], p: usize) -> Option<(u8, usize)>
    ensures { result ≡ unescape_at s.now p }
{
    match *s.get(p)? {
        b'\\' => escape_at(s, p + 1),
        c => Some((c, p + 1)),
    }
}

/// Whether `s` unescapes, else refusal 9.
pub fn unescapes(s: &[u8]) -> bool
    ensures { result ≡ unescapes s.now }
{
    Unescape::new(s).all(|byte| byte.is_ok())
}

/// The bytes of `s`, as a byte string literal has them that stands in a literal; where `s` doesn't unescape, those before
/// the first fault.
pub fn escape_unescaped(text: &mut Text, s: &[u8])
    ensures { text.new ≡ text.old ▻ escape_bytes (unescaped s.now) }
{
    for unescaped in Unescape::new(s) {
        let Ok(byte) = unescaped else {
            return;
        };
        literal::escape_byte(text, byte);
    }
}
