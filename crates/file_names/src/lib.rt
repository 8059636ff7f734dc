//! Refusal 6, as far as a file is judged by itself: what a map entry holds, messages with those nested in them, and the first file at fault.
#![tactic(auto)]

ghost use Rattle.std.specs.Prelude.{◌≡◌, map};
ghost use Rattle.base.specs.Lists.{is_empty, first_failing};
ghost use Rattle.descriptor.specs.Decode.{entries, parts, decode_field, decode_message, decode_messages, decode_file, decode_set};
ghost use Rattle.descriptor.specs.Seen.{option_seen, text_seen};
ghost use Rattle.name_rules.specs.Rules.{is_text, key_type, key_good, value_field_good, key_and_value, entry_good, messages_good, file_good};
ghost use Rattle.file_names.specs.Walks.{is_optional, own_good};

use descriptor::field_number::{
    FILE_ENUM_TYPE, FILE_MESSAGE_TYPE, MESSAGE_ENUM_TYPE, MESSAGE_FIELD, MESSAGE_NESTED_TYPE,
    MESSAGE_ONEOF_DECL, SET_FILE,
};
use descriptor::{FieldDescriptor, FileHeader, LABEL_OPTIONAL, MessageHeader, TYPE_GROUP};
use field_types::Sort;
use name_rules::rules::{is_number, package_good, syntax_good};
use parts::Parts;

// The fields of a map entry
const KEY: u32 = 1;

const VALUE: u32 = 2;

/// Is a text given, and are these its bytes?
#[tactic(auto, unfolding(base::specs::Bytes::same))]
fn is_text(text: Option<&[u8]>, wanted: &[u8]) -> bool
    ensures { result ≡ is_text wanted.now (text_seen text.entry) }
{
    text.is_some_and(|bytes| bytes == wanted)
}

/// An integer type, bool or string.
#[tactic(auto, unfolding(name_rules::specs::Rules::key_type))]
fn key_type(kind: Option<u32>) -> bool
    ensures { result ≡ key_type (option_seen kind) }
{
    kind.is_some_and(|kind| {
        matches!(
            field_types::sort_of(kind),
            Some(Sort::Integer | Sort::Boolean | Sort::Text)
        )
    })
}

/// Has the field this name and number, and is it optional?
#[tactic(auto, unfolding(crate::specs::Walks::is_optional))]
fn is_optional(field: &FieldDescriptor<'_>, name: &[u8], number: u32) -> bool
    ensures { result ≡ is_optional name.now number field.now }
{
    is_text(field.name, name)
        && is_number(field.number, number)
        && is_number(field.label, LABEL_OPTIONAL)
}

/// Is the field with these bytes the key of a map entry?
#[tactic(auto, using(crate::proofs::EntryLaws::key_is))]
fn key_field_good(part: &[u8]) -> bool
    ensures { result ≡ key_good (decode_field part.now) }
{
    let field = FieldDescriptor::new(part);
    is_optional(&field, b"key", KEY) && key_type(field.kind)
}

/// Is it the value of one?
#[tactic(auto, using(crate::proofs::EntryLaws::value_is))]
fn value_field_good(part: &[u8]) -> bool
    ensures { result ≡ value_field_good (decode_field part.now) }
{
    let field = FieldDescriptor::new(part);
    is_optional(&field, b"value", VALUE) && !is_number(field.kind, TYPE_GROUP)
}

/// The first field is the key, the second the value; there is no third.
fn key_and_value(s: &[u8]) -> bool
    ensures { result ≡ key_and_value (map decode_field (parts 2 (entries s.now))) }
{
    let mut fields = Parts::new(s, MESSAGE_FIELD);
    match (fields.next(), fields.next(), fields.next()) {
        (Some(key), Some(value), None) => key_field_good(key) && value_field_good(value),
        _ => false,
    }
}

/// Are there no embedded messages with this field number?
fn none_of(s: &[u8], number: u64) -> bool
    ensures { result ≡ is_empty (parts number (entries s.now)) }
{
    Parts::new(s, number).next().is_none()
}

/// What a map entry holds, where so many levels may be nested in it.
#[tactic(auto, using(crate::proofs::EntryLaws::entry_is))]
fn entry_good(s: &[u8], left: usize) -> bool
    ensures { result ≡ entry_good (decode_message s.now) (decode_messages left (parts 3 (entries s.now))) }
{
    key_and_value(s)
        && none_of(s, MESSAGE_ENUM_TYPE)
        && none_of(s, MESSAGE_ONEOF_DECL)
        && (left == 0 || none_of(s, MESSAGE_NESTED_TYPE))
}

/// A message without those nested in it.
#[tactic(auto, using(crate::proofs::TreeLaws::own_is))]
fn own_good(s: &[u8], left: usize) -> bool
    ensures { result ≡ own_good left s.now }
{
    let message = MessageHeader::new(s);
    file_rules::message_good(s) && (!message.map_entry || entry_good(s, left))
}

/// The messages of a file (`FILE_MESSAGE_TYPE`) or of a message (`MESSAGE_NESTED_TYPE`), in so many levels.
#[tactic(auto, unfolding(base::specs::Lists::all, crate::specs::Walks::tree_good), using(crate::proofs::TreeLaws::trees))]
fn messages_good(s: &[u8], number: u64, left: usize) -> bool
    ensures { result ≡ messages_good (decode_messages left (parts number (entries s.now))) }
{
    if left == 0 {
        return true;
    }
    // no `all`: a closure that calls this function was tried, and its proof did not close
    for message in Parts::new(s, number) {
        if !own_good(message, left - 1) || !messages_good(message, MESSAGE_NESTED_TYPE, left - 1) {
            return false;
        }
    }
    true
}

/// A file by itself: package, syntax, messages and enums.
#[tactic(auto, using(crate::proofs::TreeLaws::file_is))]
pub fn file_good(s: &[u8]) -> bool
    ensures { result ≡ file_good (decode_file s.now) }
{
    let file = FileHeader::new(s);
    package_good(file.package)
        && syntax_good(file.syntax)
        && messages_good(s, FILE_MESSAGE_TYPE, 16)
        && file_rules::enums_good(s, FILE_ENUM_TYPE)
}

/// The index of the first file at fault, and the count of files where there is none: so the definition has it, and `set_rules` takes the
/// least of two.
pub fn first_bad_file(set: &[u8]) -> usize
    ensures { result ≡ first_failing file_good (decode_set set.now) }
{
    Parts::new(set, SET_FILE)
        .take_while(|file| file_good(file))
        .count()
}
