//! The rules of a declaration by itself: of its name, type, label, number, oneof index and default.
ghost use Rattle.std.specs.Prelude.{◌≡◌};
ghost use Rattle.utf8.specs.Utf8.{is_utf8};
ghost use Rattle.base.specs.Lists.{all};
ghost use Rattle.descriptor.specs.Seen.{option_seen, text_seen};
ghost use Rattle.name_rules.specs.Rules.{good_name, has_name, segments, package_good, syntax_good, within, is_number, type_name_good, oneof_index_good, default_good, judged, field_good, value_good};

use descriptor::{
    EnumValueDescriptor, FieldDescriptor, LABEL_OPTIONAL, TYPE_ENUM, TYPE_GROUP, TYPE_MESSAGE,
};
use field_types::Type;
use syntax::known::Syntax;
use utf8::Decoded;

// The highest field number.
const MAX_NUMBER: u32 = (1 << 29) - 1;

// The labels are numbered from 1.
const MAX_LABEL: u32 = 3;

/// A declaration breaks a rule of refusal 6.
#[derive(Clone, Copy, Debug, PartialEq, Eq)]
pub struct IllFormed;

/// Is it an identifier with a letter or digit?
#[tactic(auto, unfolding(crate::specs::Rules::good_name))]
pub fn good_name(s: &[u8]) -> bool
    ensures { result ≡ good_name s.now }
{
    ident::names::is_name(s) && ident::names::has_word(s)
}

/// A name is required.
pub fn has_name(name: Option<&[u8]>) -> bool
    ensures { result ≡ has_name (text_seen name.entry) }
{
    name.is_some_and(good_name)
}

/// Are the parts between the dots names?
#[tactic(auto, unfolding(base::specs::Lists::all), using(descriptor::proofs::SegmentLaws::segments_are))]
fn segments_good(name: &[u8]) -> bool
    ensures { result ≡ all good_name (segments name.now) }
{
    name.split(|&c| c == b'.').all(good_name)
}

/// A package is missing, or names joined by dots.
pub fn package_good(name: Option<&[u8]>) -> bool
    ensures { result ≡ package_good (text_seen name.entry) }
{
    name.is_none_or(segments_good)
}

/// A syntax is missing, or proto2 or proto3.
#[tactic(auto, using(crate::proofs::SyntaxLaws::known_good))]
pub fn syntax_good(syntax: Option<&[u8]>) -> bool
    ensures { result ≡ syntax_good (text_seen syntax.entry) }
{
    Syntax::try_from(syntax).is_ok()
}

/// Is a number given, from `low` to `high`?
fn within(low: u32, high: u32, number: Option<u32>) -> bool
    ensures { result ≡ within low high (option_seen number) }
{
    number.is_some_and(|number| (low..=high).contains(&number))
}

/// Is a number given, and this one?
// By its name, and not by `==` at each place: the definitions of the rules are stated by it.
pub fn is_number(number: Option<u32>, wanted: u32) -> bool
    ensures { result ≡ is_number wanted (option_seen number) }
{
    number == Some(wanted)
}

/// Is a type given?
#[tactic(auto, using(crate::proofs::TypeLaws::known_type))]
fn is_type(kind: Option<u32>) -> bool
    ensures { result ≡ within 1 18 (option_seen kind) }
{
    kind.is_some_and(|kind| Type::try_from(kind).is_ok())
}

/// A group, a message and an enum need the name of their type.
fn type_name_good(kind: Option<u32>, name: Option<&[u8]>) -> bool
    ensures { result ≡ type_name_good (option_seen kind) (text_seen name.entry) }
{
    name.is_some()
        || !(is_number(kind, TYPE_GROUP)
            || is_number(kind, TYPE_MESSAGE)
            || is_number(kind, TYPE_ENUM))
}

/// A oneof index is missing, or one of an optional field and below the count of oneofs.
fn oneof_index_good(oneofs: usize, label: Option<u32>, index: Option<u32>) -> bool
    ensures { result ≡ oneof_index_good oneofs (option_seen label) (option_seen index) }
{
    index.is_none_or(|index| {
        index < 1 << 31
            && usize::try_from(index).is_ok_and(|index| index < oneofs)
            && is_number(label, LABEL_OPTIONAL)
    })
}

/// A character that doesn't decode ends in refusal 6.
fn judge_default(default: &[u8]) -> Result<(), IllFormed>
    ensures { result ≡ judged (is_utf8 default.now) }
{
    let mut at = 0;
    // no `for` over `Chars`: document 01 asks for `let .. else` over the enum of UTF-8's step
    while at < default.len() {
        let Decoded::Character(_, next) = utf8::char_at(default, at) else {
            return Err(IllFormed);
        };
        at = next;
    }
    Ok(())
}

/// A default is missing, or UTF-8, and of an enum field a name.
fn default_good(kind: Option<u32>, default: Option<&[u8]>) -> bool
    ensures { result ≡ default_good (option_seen kind) (text_seen default.entry) }
{
    default.is_none_or(|default| {
        judge_default(default).is_ok() && (!is_number(kind, TYPE_ENUM) || good_name(default))
    })
}

/// A field of a message that has so many oneofs.
#[tactic(auto, unfolding(crate::specs::Rules::field_good))]
pub fn field_good(field: &FieldDescriptor<'_>, oneofs: usize) -> bool
    ensures { result ≡ field_good oneofs field.now }
{
    has_name(field.name)
        && within(1, MAX_NUMBER, field.number)
        && within(1, MAX_LABEL, field.label)
        && is_type(field.kind)
        && type_name_good(field.kind, field.type_name)
        && oneof_index_good(oneofs, field.label, field.oneof_index)
        && default_good(field.kind, field.default_value)
}

/// A value of an enum has a name and a number.
#[tactic(auto, unfolding(crate::specs::Rules::value_good))]
pub fn value_good(value: &EnumValueDescriptor<'_>) -> bool
    ensures { result ≡ value_good value.now }
{
    has_name(value.name) && value.number.is_some()
}
