//! What stands between the quotes of the Rust literals that are written, by `escape_default`.
#![tactic(auto)]

ghost use Rattle.std.specs.Prelude.{◌≡◌, ℕ, List};
ghost use Rattle.base.specs.Each.{each};
ghost use Rattle.writer.specs.Writing.{◌▻◌};
ghost use Rattle.literal.specs.Escape.{hex_digit, hex_digits, escape, form_text, unicode_escape, escape_char, escape_byte, escape_text};

use utf8::Chars;
use writer::Text;

/// The last hexadecimal digit of `n`.
#[tactic(auto, unfolding(crate::specs::Escape::hex_digit, base::specs::Choose::choose))]
fn hex_digit(n: u32) -> u8
    ensures { result ≡ hex_digit n }
{
    // a cast: what is below 16 fits, and `try_from` would ask for a digit where it doesn't
    let d = (n % 16) as u8;
    if d < 10 { b'0' + d } else { b'a' - 10 + d }
}

/// The last `k` hexadecimal digits of `n` at most, and no leading zero.
// A recursion, as its definition is one: the digits come last to first.
fn put_hex(text: &mut Text, n: u32, k: usize)
    ensures { text.new ≡ text.old ▻ hex_digits k n }
{
    if k == 0 {
        return;
    }
    if n >= 16 {
        put_hex(text, n / 16, k - 1);
    }
    text.put_byte(hex_digit(n));
}

/// `char::escape_unicode`
fn escape_unicode(text: &mut Text, c: u32)
    ensures { text.new ≡ text.old ▻ unicode_escape c }
{
    text.put(b"\\u{");
    put_hex(text, c, 8);
    text.put(b"}");
}

/// How a character is written: behind a `\` as a letter, as it is, or as a longer escape.
#[derive(Clone, Copy, PartialEq, Eq)]
enum Form {
    Letter(u8),
    Plain(u8),
    Long,
}

/// The form of a character.
// Its letters are of Rust's escapes. Those of C's, which c_escaping's `letter` reads, are others.
#[tactic(auto, unfolding(crate::specs::Escape::escape, crate::specs::Escape::letter, base::specs::Choose::choose))]
fn form_of(c: u32) -> Form
    ensures { (long : List ℕ) → escape c long ≡ form_text result long }
{
    let Ok(byte) = u8::try_from(c) else {
        return Form::Long;
    };
    match byte {
        b'\t' => Form::Letter(b't'),
        b'\r' => Form::Letter(b'r'),
        b'\n' => Form::Letter(b'n'),
        b'\'' => Form::Letter(b'\''),
        b'"' => Form::Letter(b'"'),
        b'\\' => Form::Letter(b'\\'),
        0x20..=0x7E => Form::Plain(byte),
        _ => Form::Long,
    }
}

/// `char::escape_default`
pub fn escape_char(text: &mut Text, c: u32)
    ensures { text.new ≡ text.old ▻ escape_char c }
{
    match form_of(c) {
        Form::Letter(l) => {
            text.put_byte(b'\\');
            text.put_byte(l);
        }
        Form::Plain(c) => text.put_byte(c),
        Form::Long => escape_unicode(text, c),
    }
}

/// `escape_char` of each of these.
fn escape_all(text: &mut Text, bytes: &[u8])
    ensures { text.new ≡ text.old ▻ each escape_char bytes.now }
{
    for &c in bytes {
        escape_char(text, u32::from(c));
    }
}

/// `ascii::escape_default`, each of its characters escaped.
#[tactic(auto, unfolding(crate::specs::Escape::escape_byte, crate::specs::Escape::byte_escape))]
pub fn escape_byte(text: &mut Text, x: u8)
    ensures { text.new ≡ text.old ▻ each escape_char (escape_byte x) }
{
    let c = u32::from(x);
    match form_of(c) {
        Form::Letter(l) => escape_all(text, &[b'\\', l]),
        Form::Plain(l) => escape_all(text, &[l]),
        Form::Long => escape_all(text, &[b'\\', b'x', hex_digit(c / 16), hex_digit(c)]),
    }
}

/// `str::escape_default`: each character; where `s` is not well-formed, those before the first fault.
pub fn escape_text(text: &mut Text, s: &[u8])
    ensures { text.new ≡ text.old ▻ escape_text s.now }
{
    for c in Chars::new(s) {
        escape_char(text, c);
    }
}
