//! Refusals 8 and 9 of a file.
#![tactic(auto)]

ghost use Rattle.std.specs.Prelude.{◌≡◌, eqb, leb, length, ◌||◌, ◌+◌, ◌-◌, ◌≤◌, ◌<◌, ◌^◌};
ghost use Rattle.base.specs.Lists.{any};
ghost use Rattle.field_types.specs.Types.{sort_of, bytes};
ghost use Rattle.descriptor.specs.Decode.{entries, parts};
ghost use Rattle.descriptor.specs.Seen.{text_seen};
ghost use Rattle.name_rules.specs.Accessors.{type};
ghost use Rattle.text_tables.specs.Rows.{is_plain};
ghost use Rattle.members.specs.Members.{map_entry_at, numbers_where};
ghost use Rattle.code_generator.specs.Refusals.{is_given, given_fails};
ghost use Rattle.file_faults.specs.FileFaults.{no_faults, ◌or◌, default_fails_at, enums_meet, own_faults, message_faults, messages_faults, faults_of_file};

use context::Context;
use descriptor::FieldDescriptor;
use descriptor::field_number::{
    FILE_ENUM_TYPE, FILE_MESSAGE_TYPE, MESSAGE_ENUM_TYPE, MESSAGE_FIELD, MESSAGE_NESTED_TYPE,
};
use enum_text::overlap::enum_overlaps;
use extern_paths::resolve::takes;
use field_types::Sort;
use file_parts::Numbered;
use joined::Name;
use members::{Message, field_at, is_entry};
use options::Options;
use parts::Parts;
use std::ops::Range;
use text_tables::field_row;

/// Variants of a written enum overlap (8); a bytes default to be written doesn't unescape (9).
#[derive(Clone, Copy)]
pub struct Faults {
    pub overlap: bool,
    pub default: bool,
}

const NO_FAULTS: Faults = Faults {
    overlap: false,
    default: false,
};

impl Faults {
    // Those of one or the other.
    fn or(self, other: Faults) -> Faults
        ensures { result ≡ (self or other) }
    {
        Faults {
            overlap: self.overlap || other.overlap,
            default: self.default || other.default,
        }
    }
}

// Do variants overlap in one of the enums with this field number?
#[tactic(auto, unfolding(base::specs::Lists::any))]
fn enums_meet(part: &[u8], number: u64, options: &Options<'_>, scope: &[u8]) -> bool
    ensures { result ≡ enums_meet options.now scope.now (parts number (entries part.now)) }
{
    Parts::new(part, number).any(|part| enum_overlaps(part, options, scope))
}

// Has it the two fields of a map entry?
fn is_map(entry: &[u8]) -> bool
    ensures { result ≡ leb 2 (length (parts 2 (entries entry.now))) }
{
    2 <= Parts::new(entry, MESSAGE_FIELD).count()
}

// Does field k name a map entry?
#[tactic(auto, unfolding(members::specs::Members::entry_at), using(crate::proofs::FieldLaws::given_by_two))]
fn names_map(context: &Context<'_>, k: usize) -> bool
    ensures { result ≡ is_given (map_entry_at context.now.set context.now.fields k) }
{
    let entry = field_row(context.fields, k).entry;
    entry.is_some_and(|entry| is_map(entry.bytes_in(context.set)))
}

// Does a default, where it is given, not unescape?
fn given_fails(default: Option<&[u8]>) -> bool
    ensures { result ≡ given_fails (text_seen default.entry) }
{
    default.is_some_and(|text| !c_escaping::unescapes(text))
}

// Are its values bytes?
fn is_bytes(field: &FieldDescriptor<'_>) -> bool
    ensures { result ≡ eqb (sort_of (type field.now)) bytes }
{
    matches!(field_types::sort_of(field.kind()), Some(Sort::Bytes))
}

// Does the bytes default of field k not unescape? The field is read only where it names no map entry: in one expression it would
// be bound in the middle.
#[tactic(auto, unfolding(crate::specs::FileFaults::default_fails_at))]
fn default_fails_at(context: &Context<'_>, k: usize) -> bool
    ensures { result ≡ default_fails_at context.now.set context.now.fields k }
{
    if names_map(context, k) {
        return false;
    }
    let field = field_at(context, k);
    is_bytes(&field) && given_fails(field.default_value)
}

// Does that of one of the fields that are in no oneof?
fn defaults_fail(context: &Context<'_>, fields: &Range<usize>) -> bool
    ensures { result ≡ any (default_fails_at context.now.set context.now.fields) (numbers_where is_plain context.now.fields (fields.now.end - fields.now.start) fields.now.start) }
{
    (fields.start..fields.end).any(|k| field_row(context.fields, k).is_plain()
        && default_fails_at(context, k))
}

// Here and below a bound on the levels left and the number: a struct of both would be made anew at each level.

// A message alone.
#[tactic(auto, unfolding(crate::specs::FileFaults::own_faults))]
fn own_faults(context: &Context<'_>, message: &Message<'_>) -> Faults
    ensures { result ≡ own_faults context.now.options context.now.set context.now.messages context.now.fields message.now.full message.now.number message.now.part }
{
    let overlap = enums_meet(
        message.part,
        MESSAGE_ENUM_TYPE,
        &context.options,
        message.full,
    );
    let default = defaults_fail(context, &message.fields(context.messages));
    Faults { overlap, default }
}

// A message with those nested in it, so many levels: what is not written has none.
#[tactic(auto, unfolding(crate::specs::FileFaults::message_faults, base::specs::Choose::choose), using(crate::proofs::WalkLaws::first_nested))]
#[cycle(message_faults_messages_faults)]
fn message_faults(
    context: &Context<'_>,
    scope: &[u8],
    number: usize,
    part: &[u8],
    left: usize,
) -> Faults
    requires { (number + 1 + left < 2 ^ 64) × (left ≤ 16) }
    ensures { result ≡ message_faults context.now.options context.now.set context.now.messages context.now.fields (messages_faults context.now.options context.now.set context.now.messages context.now.fields left) scope.now number part.now }
{
    if is_entry(part) {
        return NO_FAULTS;
    }
    let full = Name::new(scope, joined::name_of(part));
    let full = full.as_bytes();
    if takes(&context.options, full) {
        return NO_FAULTS;
    }
    let message = Message {
        part,
        number,
        full,
        nested: left != 0,
    };
    let own = own_faults(context, &message);
    let nested = messages_faults(
        context,
        full,
        number + 1,
        Parts::new(part, MESSAGE_NESTED_TYPE),
        left,
    );
    own.or(nested)
}

// Messages in a scope, the first with the number `first`; so many levels.
#[cycle(message_faults_messages_faults)]
fn messages_faults(
    context: &Context<'_>,
    scope: &[u8],
    first: usize,
    messages: Parts<'_>,
    left: usize,
) -> Faults
    requires { (first + left < 2 ^ 64) × (left ≤ 16) }
    ensures { result ≡ messages_faults context.now.options context.now.set context.now.messages context.now.fields left scope.now first messages.entry }
{
    let mut found = NO_FAULTS;
    if left == 0 {
        return found;
    }
    for (number, part) in Numbered::new(context.messages, first, messages) {
        found = found.or(message_faults(context, scope, number, part, left - 1));
    }
    found
}

/// A file whose first message has the number `first`.
pub fn file_faults(context: &Context<'_>, first: usize, part: &[u8]) -> Faults
    ensures { result ≡ faults_of_file context.now.options context.now.set context.now.messages context.now.fields first part.now }
{
    let scope = Name::package(part);
    let scope = scope.as_bytes();
    let messages = Parts::new(part, FILE_MESSAGE_TYPE);
    // all numbers past the table's end have one row
    let first = first.min(context.messages.len());
    let found = messages_faults(context, scope, first, messages, 16);
    let overlap = enums_meet(part, FILE_ENUM_TYPE, &context.options, scope);
    found.or(Faults {
        overlap,
        default: false,
    })
}
