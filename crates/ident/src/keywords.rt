//! What sanitising adds to a name that is a keyword or begins with a digit.
ghost use Rattle.std.specs.Prelude.{◌≡◌, ◌<◌, ◌≤◌};
ghost use Rattle.writer.specs.Writing.{◌▻◌};
ghost use Rattle.ident.specs.Ident.{addition};
ghost use Rattle.ident.specs.Added.{before, behind};
ghost use Rattle.ident.specs.Numbers.{number_of, word, numbered, begins_kept};

use writer::Text;

/// What is added to a name: nothing, `r#` in front, `_` behind, `_` in front.
#[derive(Clone, Copy, PartialEq, Eq)]
pub enum Addition {
    Nothing,
    Raw,
    Trailing,
    Leading,
}

/// How many of the listed words gain `r#`: the first ones.
const RAW_WORDS: usize = 47;

/// The listed words. The others gain a trailing `_`.
static WORDS: [&[u8]; 53] = [
    b"as",
    b"break",
    b"const",
    b"continue",
    b"else",
    b"enum",
    b"false",
    b"fn",
    b"for",
    b"if",
    b"impl",
    b"in",
    b"let",
    b"loop",
    b"match",
    b"mod",
    b"move",
    b"mut",
    b"pub",
    b"ref",
    b"return",
    b"static",
    b"struct",
    b"trait",
    b"true",
    b"type",
    b"unsafe",
    b"use",
    b"where",
    b"while",
    b"dyn",
    b"abstract",
    b"become",
    b"box",
    b"do",
    b"final",
    b"macro",
    b"override",
    b"priv",
    b"typeof",
    b"unsized",
    b"virtual",
    b"yield",
    b"async",
    b"await",
    b"try",
    b"gen",
    b"_",
    b"super",
    b"self",
    b"Self",
    b"extern",
    b"crate",
];

/// A name's first byte, middle byte and length leave one listed word that it can be: that word's number, and 53 or more
/// for none.
// Bytes looked up by hand: one comparison in place of 53 for each name that the text call writes (docs/PERFORMANCE.md,
// "listed words by number").
static NUMBERS: [u8; 111] =
    *b"\x35\x0c\x37\x2d\x39\x3a\x2b\x3c\x1a\x36\x24\x38\x14\x04\x3b\x3c\x35\x36\x37\x15\x32\x3a\x33\x0b\x35\x27\x1b\x16\x39\x05\x3b\x3c\x18\x11\x03\x0e\x2c\x2e\x3b\x3c\x35\x1e\x21\x38\x39\x3a\x10\x3c\x35\x0a\x37\x38\x39\x3a\x00\x3c\x31\x20\x37\x02\x39\x3a\x3b\x3c\x25\x1c\x34\x22\x39\x29\x09\x3c\x35\x36\x37\x38\x1f\x28\x12\x3c\x35\x2f\x37\x01\x39\x3a\x0d\x3c\x06\x07\x37\x13\x39\x30\x3b\x2a\x0f\x1d\x26\x17\x39\x3a\x08\x19\x23\x36\x37\x38\x39\x3a\x3b";

/// The number of the one word that a name of so many bytes can be.
#[tactic(auto, unfolding(crate::specs::Numbers::numbers, crate::specs::Numbers::number_of))]
fn number_of(first: u8, middle: u8, length: usize) -> usize
    requires { length ≤ 8 }
    ensures { result ≡ number_of first middle length }
{
    let place = (usize::from(first) * 15 + usize::from(middle) * 8 + length * 5) % 111;
    usize::from(NUMBERS[place])
}

/// A listed word.
fn word(number: usize) -> &'static [u8]
    requires { number < 53 }
    ensures { result.now ≡ word number }
{
    WORDS[number]
}

/// The number of the listed word that the name is.
#[tactic(auto, using(crate::proofs::NumberLaws::number_laws))]
fn word_number(name: &[u8]) -> Option<usize>
    ensures { numbered result name.now ≡ addition name.now }
{
    let length = name.len();
    if length == 0 || 8 < length {
        return None;
    }
    let number = number_of(name[0], name[length / 2], length);
    if number < 53 && name == word(number) {
        Some(number)
    } else {
        None
    }
}

impl Addition {
    /// What is added to a name.
    #[tactic(auto, unfolding(crate::specs::Numbers::numbered, base::specs::Choose::choose, heck::specs::Case::between))]
    pub fn of(name: &[u8]) -> Addition
        ensures { result ≡ addition name.now }
    {
        match word_number(name) {
            Some(number) if number < RAW_WORDS => Addition::Raw,
            Some(_) => Addition::Trailing,
            None if matches!(name, [byte, ..] if byte.is_ascii_digit()) => Addition::Leading,
            None => Addition::Nothing,
        }
    }

    /// What is added in front of the name.
    #[tactic(auto, using(crate::proofs::AdditionLaws::nothing_put))]
    pub fn put_before(self, text: &mut Text<'_>)
        ensures { text.new ≡ text.old ▻ before self }
    {
        match self {
            Addition::Raw => text.put(b"r#"),
            Addition::Leading => text.put(b"_"),
            Addition::Nothing | Addition::Trailing => {}
        }
    }

    /// What is added behind it.
    #[tactic(auto, using(crate::proofs::AdditionLaws::nothing_put))]
    pub fn put_behind(self, text: &mut Text<'_>)
        ensures { text.new ≡ text.old ▻ behind self }
    {
        if self == Addition::Trailing {
            text.put(b"_");
        }
    }
}

/// Does one of the words that gain a trailing `_` begin with the byte?
#[tactic(auto, unfolding(crate::specs::Numbers::begins_kept))]
pub fn begins_kept(byte: u8) -> bool
    ensures { result ≡ begins_kept byte }
{
    matches!(byte, b'_' | b's' | b'S' | b'e' | b'c')
}
