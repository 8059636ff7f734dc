//! The rows of the places that a set's declarations have: structs, enums, oneof enums, modules of messages.
#![tactic(auto)]

ghost use Rattle.std.specs.Prelude.{◌≡◌, ◌+◌, ◌≤◌, ◌<◌, ◌^◌, not, eqb};
ghost use Rattle.writer.specs.Writing.{◌▻◌};
ghost use Rattle.descriptor.specs.Decode.{entries, parts};
ghost use Rattle.code_generator.specs.Piece.{spelt, oneof_type};
ghost use Rattle.name_rows.specs.Rows.{row};
ghost use Rattle.place_rows.specs.PlaceRows.{enum_row, enum_rows, oneof_rows, module_rows, message_rows, messages_rows, file_rows, set_rows};

use context::Context;
use descriptor::field_number::{
    FILE_ENUM_TYPE, FILE_MESSAGE_TYPE, MESSAGE_ENUM_TYPE, MESSAGE_NESTED_TYPE,
};
use extern_paths::resolve::takes;
use file_parts::{Files, Numbered};
use joined::Name;
use members::{Message, Oneof};
use name_rows::{Spelling, put_row};
use options::Options;
use parts::Parts;
use writer::Text;

// An enum, unless an extern path takes it.
fn put_enum(text: &mut Text<'_>, options: &Options<'_>, home: &[u8], part: &[u8])
    ensures { text.new ≡ text.old ▻ enum_row options.now home.now 0 part.now }
{
    let name = joined::name_of(part);
    let path = Name::new(home, name);
    if !takes(options, path.as_bytes()) {
        put_row(text, home, Spelling::UpperCamel, name);
    }
}

fn put_enums(text: &mut Text<'_>, options: &Options<'_>, home: &[u8], enums: Parts<'_>)
    ensures { text.new ≡ text.old ▻ enum_rows options.now home.now enums.entry }
{
    for part in enums {
        put_enum(text, options, home, part);
    }
}

// The enum of a oneof.
fn put_oneof(text: &mut Text<'_>, home: &[u8], oneof: &Oneof<'_>)
    ensures { text.new ≡ text.old ▻ row home.now (spelt (oneof_type oneof.now.conflict oneof.now.name)) }
{
    let spelling = Spelling::OneofType(oneof.conflict);
    put_row(text, home, spelling, oneof.name);
}

// The enums of a message's oneofs: one left without fields is left out.
fn put_oneofs(text: &mut Text<'_>, context: &Context<'_>, message: &Message<'_>)
    ensures { text.new ≡ text.old ▻ oneof_rows context.now.messages context.now.fields message.now.full message.now.nested message.now.number message.now.part }
{
    if !message.declares_oneofs() {
        return;
    }
    for oneof in message.oneofs(context) {
        put_oneof(text, message.full, &oneof);
    }
}

// Here and below a bound on the levels left and the number: a struct of both would be made anew at each level.

// The module of a message in a scope, with so many levels of messages in it.
#[cycle(put_message_put_messages_put_module)]
fn put_module(
    text: &mut Text<'_>,
    context: &Context<'_>,
    scope: &[u8],
    message: &Message<'_>,
    left: usize,
)
    requires { (left ≤ 15) × (message.now.number + left < 2 ^ 33) }
    ensures { text.new ≡ text.old ▻ module_rows context.now.options context.now.messages context.now.fields (messages_rows context.now.options context.now.messages context.now.fields left) scope.now message.now.full message.now.nested message.now.number message.now.part }
{
    let part = message.part;
    put_row(text, scope, Spelling::Snake, message.name());
    put_messages(
        text,
        context,
        message.full,
        message.number + 1,
        Parts::new(part, MESSAGE_NESTED_TYPE),
        left,
    );
    put_enums(
        text,
        &context.options,
        message.full,
        Parts::new(part, MESSAGE_ENUM_TYPE),
    );
    put_oneofs(text, context, message);
}

// A message in a scope.
#[cycle(put_message_put_messages_put_module)]
fn put_message(
    text: &mut Text<'_>,
    context: &Context<'_>,
    scope: &[u8],
    number: usize,
    part: &[u8],
    left: usize,
)
    requires { (left ≤ 15) × (number + left < 2 ^ 33) }
    ensures { text.new ≡ text.old ▻ message_rows context.now.options context.now.messages context.now.fields (messages_rows context.now.options context.now.messages context.now.fields left) scope.now (not (eqb left 0)) number part.now }
{
    if members::is_entry(part) {
        return;
    }
    let name = joined::name_of(part);
    let full = Name::new(scope, name);
    if takes(&context.options, full.as_bytes()) {
        return;
    }
    put_row(text, scope, Spelling::UpperCamel, name);
    let message = Message {
        part,
        number,
        full: full.as_bytes(),
        nested: left != 0,
    };
    if message_text::module_for(context, &message) {
        put_module(text, context, scope, &message, left);
    }
}

// Messages in a scope, so many levels; `first` is the number of the first.
#[cycle(put_message_put_messages_put_module)]
fn put_messages(
    text: &mut Text<'_>,
    context: &Context<'_>,
    scope: &[u8],
    first: usize,
    messages: Parts<'_>,
    left: usize,
)
    requires { (left ≤ 16) × (first + left ≤ 2 ^ 33) }
    ensures { text.new ≡ text.old ▻ messages_rows context.now.options context.now.messages context.now.fields left scope.now first messages.entry }
{
    if left == 0 {
        return;
    }
    for (number, part) in Numbered::new(context.messages, first, messages) {
        put_message(text, context, scope, number, part, left - 1);
    }
}

// A file; `first` is the number of its first message.
fn put_file(text: &mut Text<'_>, context: &Context<'_>, first: usize, part: &[u8])
    requires { first < 65536 }
    ensures { text.new ≡ text.old ▻ file_rows context.now.options context.now.messages context.now.fields first part.now }
{
    let scope = Name::package(part);
    put_messages(
        text,
        context,
        scope.as_bytes(),
        first,
        Parts::new(part, FILE_MESSAGE_TYPE),
        16,
    );
    put_enums(
        text,
        &context.options,
        scope.as_bytes(),
        Parts::new(part, FILE_ENUM_TYPE),
    );
}

/// The rows of all declared places of a set.
pub fn put_places(text: &mut Text<'_>, context: &Context<'_>)
    ensures { text.new ≡ text.old ▻ set_rows context.now.options context.now.messages context.now.fields context.now.set }
{
    for (first, part) in Files::new(context.messages, context.set) {
        put_file(text, context, first, part);
    }
}
