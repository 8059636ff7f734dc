//! Names of a struct's members, and of a oneof's variants, that are the same. They are laid as rows into a lent buffer.
#![tactic(auto)]

ghost use Rattle.std.specs.Prelude.{◌≡◌, ◌+◌, ◌-◌, ◌≤◌, ◌<◌, ◌^◌, true, length, List, ℕ};
ghost use Rattle.std.specs.Borrow.{MutBor};
ghost use Rattle.writer.specs.Writing.{◌▻◌, start};
ghost use Rattle.descriptor.specs.Decode.{entries, parts};
ghost use Rattle.text_tables.specs.Rows.{is_in};
ghost use Rattle.members.specs.Members.{numbers_where};
ghost use Rattle.member_rows.specs.MemberRows.{chosen, rows_by, field_rows, rows_overlap, oneof_rows, struct_meets, oneofs_meet, own_meet, message_meets, messages_meet, file_meets, set_meets};

use context::Context;
use descriptor::field_number::{FILE_MESSAGE_TYPE, MESSAGE_NESTED_TYPE, MESSAGE_ONEOF_DECL};
use extern_paths::resolve::takes;
use file_parts::{Files, Numbered};
use joined::Name;
use members::Message;
use name_rows::{Spelling, put_row};
use parts::Parts;
use std::ops::Range;
use text_tables::FieldRow;
use writer::Text;

// Is the field in the oneof with the index, or else in none?
fn is_member(row: &FieldRow, oneof: Option<usize>) -> bool
    ensures { result ≡ chosen oneof row.now }
{
    match oneof {
        Some(index) => row.is_in(index),
        None => row.is_plain(),
    }
}

// The rows of the fields in a range that are in the oneof with the index, or else in none.
fn put_fields(
    text: &mut Text<'_>,
    context: &Context<'_>,
    spelling: Spelling,
    oneof: Option<usize>,
    fields: Range<usize>,
)
    ensures { text.new ≡ text.old ▻ rows_by spelling context.now.set context.now.fields (numbers_where (chosen oneof) context.now.fields (fields.end - fields.start) fields.start) }
{
    for k in fields {
        if is_member(&text_tables::field_row(context.fields, k), oneof) {
            put_row(text, b"", spelling, members::field_at(context, k).name());
        }
    }
}

// The rows of a message's oneofs: one left without fields has none. (`Message::oneofs` would also meet each name with those of the
// nested types.)
fn put_oneofs(text: &mut Text<'_>, context: &Context<'_>, message: &Message<'_>)
    ensures { text.new ≡ text.old ▻ oneof_rows context.now.messages context.now.fields message.now.number message.now.part }
{
    let fields = message.fields(context.messages);
    for (index, part) in Parts::new(message.part, MESSAGE_ONEOF_DECL).enumerate() {
        if members::has_members(context.fields, index, &fields) {
            put_row(text, b"", Spelling::Snake, joined::name_of(part));
        }
    }
}

// Are two of the rows the same that a text has, which was begun in a buffer?
fn rows_meet(text: &Text<'_>) -> bool
    ensures { (rows : MutBor (List ℕ)) (bytes : List ℕ) → text.now ≡ start rows ▻ bytes → result ≡ rows_overlap (length rows.now) bytes }
{
    name_rows::rows_meet(&text.buffer[..text.place()])
}

// Do the names of two members of a message's struct?
fn struct_meets(rows: &mut [u8], context: &Context<'_>, message: &Message<'_>) -> bool
    ensures { result ≡ struct_meets (length rows.old) context.now.set context.now.messages context.now.fields message.now.number message.now.part }
{
    let fields = message.fields(context.messages);
    let mut text = Text::new(rows);
    put_fields(&mut text, context, Spelling::Snake, None, fields);
    put_oneofs(&mut text, context, message);
    rows_meet(&text)
}

// Do the names of two variants of the oneof with the index?
fn variants_meet(rows: &mut [u8], context: &Context<'_>, index: usize, fields: Range<usize>) -> bool
    ensures { result ≡ rows_overlap (length rows.old) (field_rows context.now.set context.now.fields true (numbers_where (is_in index) context.now.fields (fields.end - fields.start) fields.start)) }
{
    let mut text = Text::new(rows);
    put_fields(
        &mut text,
        context,
        Spelling::UpperCamel,
        Some(index),
        fields,
    );
    rows_meet(&text)
}

// Of one of a message's oneofs?
fn oneofs_meet(rows: &mut [u8], context: &Context<'_>, message: &Message<'_>) -> bool
    ensures { result ≡ oneofs_meet (length rows.old) context.now.set context.now.messages context.now.fields message.now.number message.now.part (length (parts 8 (entries message.now.part))) 0 }
{
    let fields = message.fields(context.messages);
    let count = parts::count_parts(message.part, MESSAGE_ONEOF_DECL);
    for index in 0..count {
        // the range by its ends: `clone` gives a `Result` here
        if variants_meet(rows, context, index, fields.start..fields.end) {
            return true;
        }
    }
    false
}

// Here and below a bound on the levels left and the number: a struct of both would be made anew at each level.

// A message alone.
#[tactic(auto, unfolding(crate::specs::MemberRows::own_meet))]
fn own_meet(rows: &mut [u8], context: &Context<'_>, message: &Message<'_>) -> bool
    ensures { result ≡ own_meet (length rows.old) context.now.set context.now.messages context.now.fields message.now.number message.now.part }
{
    struct_meets(rows, context, message) || oneofs_meet(rows, context, message)
}

// A message in a scope with those nested in it, so many levels: what is not written has none.
// Returns early: in one expression the full name and the message would be bound in the middle.
#[cycle(message_meets_messages_meet)]
fn message_meets(
    rows: &mut [u8],
    context: &Context<'_>,
    scope: &[u8],
    number: usize,
    part: &[u8],
    left: usize,
) -> bool
    requires { (number + left < 2 ^ 33) × (left ≤ 16) }
    ensures { result ≡ message_meets context.now.options (length rows.old) context.now.set context.now.messages context.now.fields (messages_meet context.now.options (length rows.old) context.now.set context.now.messages context.now.fields left) scope.now number part.now }
{
    if members::is_entry(part) {
        return false;
    }
    let full = Name::new(scope, joined::name_of(part));
    if takes(&context.options, full.as_bytes()) {
        return false;
    }
    let message = Message {
        part,
        number,
        full: full.as_bytes(),
        nested: left != 0,
    };
    let nested = Parts::new(part, MESSAGE_NESTED_TYPE);
    own_meet(rows, context, &message)
        || messages_meet(rows, context, full.as_bytes(), number + 1, nested, left)
}

// Messages in a scope, so many levels; `first` is the number of the first.
#[cycle(message_meets_messages_meet)]
fn messages_meet(
    rows: &mut [u8],
    context: &Context<'_>,
    scope: &[u8],
    first: usize,
    messages: Parts<'_>,
    left: usize,
) -> bool
    requires { (first + left ≤ 2 ^ 33) × (left ≤ 16) }
    ensures { result ≡ messages_meet context.now.options (length rows.old) context.now.set context.now.messages context.now.fields left scope.now first messages.entry }
{
    if left == 0 {
        return false;
    }
    for (number, part) in Numbered::new(context.messages, first, messages) {
        if message_meets(rows, context, scope, number, part, left - 1) {
            return true;
        }
    }
    false
}

// A file; `first` is the number of its first message.
fn file_meets(rows: &mut [u8], context: &Context<'_>, first: usize, part: &[u8]) -> bool
    requires { first < 65536 }
    ensures { result ≡ file_meets context.now.options (length rows.old) context.now.set context.now.messages context.now.fields first part.now }
{
    let scope = Name::package(part);
    let messages = Parts::new(part, FILE_MESSAGE_TYPE);
    messages_meet(rows, context, scope.as_bytes(), first, messages, 16)
}

/// Do the names of two members of a written struct, or of two variants of one of its oneofs? rows: room for the rows.
pub fn members_meet(rows: &mut [u8], context: &Context<'_>) -> bool
    ensures { result ≡ set_meets context.now.options (length rows.old) context.now.set context.now.messages context.now.fields }
{
    for (first, part) in Files::new(context.messages, context.set) {
        if file_meets(rows, context, first, part) {
            return true;
        }
    }
    false
}
