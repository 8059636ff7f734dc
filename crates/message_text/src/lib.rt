//! code_generator.rs, append_message: the messages of a file, and its text.
#![tactic(auto)]

ghost use Rattle.std.specs.Prelude.{◌≡◌, not, ◌+◌, ◌-◌, ◌≤◌, ◌<◌, ◌^◌, eqb};
ghost use Rattle.base.specs.Lists.{any};
ghost use Rattle.writer.specs.Draft.{Filled};
ghost use Rattle.writer.specs.Writing.{◌▻◌};
ghost use Rattle.syntax.specs.Syntax.{syntax_of};
ghost use Rattle.descriptor.specs.Descriptor.{Bytes};
ghost use Rattle.descriptor.specs.Decode.{entries, parts, decode_file};
ghost use Rattle.struct_text.specs.StructText.{struct_text};
ghost use Rattle.code_generator.specs.Writing.{◌⊳◌};
ghost use Rattle.code_generator.specs.Generate.{push_mod, is_proto3};
ghost use Rattle.message_text.specs.MessageText.{is_entry, module_for, module_text, message_text, message_texts, text_of_file};

use attributes::{end, put_line};
use context::Context;
use descriptor::FileHeader;
use descriptor::field_number::{
    FILE_ENUM_TYPE, FILE_MESSAGE_TYPE, MESSAGE_ENUM_TYPE, MESSAGE_NESTED_TYPE,
};
use enum_text::append_enums;
use extern_paths::resolve::takes;
use file_parts::Numbered;
use ident::text::put_snake;
use joined::Name;
use members::{Message, in_oneofs, is_entry};
use oneof_text::append_oneofs;
use parts::Parts;
use struct_text::append_struct;
use syntax::known::Syntax;
use writer::Text;

// Is a message nested in it that is no map entry?
#[tactic(auto, unfolding(base::specs::Lists::any))]
fn has_nested(part: &[u8]) -> bool
    ensures { result ≡ any (λ (q : Bytes). not (is_entry q)) (parts 3 (entries part.now)) }
{
    Parts::new(part, MESSAGE_NESTED_TYPE).any(|part| !is_entry(part))
}

/// Is a module written for the message?
#[tactic(auto, unfolding(crate::specs::MessageText::module_for))]
pub fn module_for(context: &Context<'_>, message: &Message<'_>) -> bool
    ensures { result ≡ module_for context.now.messages context.now.fields message.now.nested message.now.number message.now.part }
{
    let has_enums = Parts::new(message.part, MESSAGE_ENUM_TYPE).next().is_some();
    has_enums
        || (message.nested && has_nested(message.part))
        || in_oneofs(context.fields, &message.fields(context.messages))
}

// The line of a message's module, and the one before it.
#[tactic(auto, unfolding(code_generator::specs::Generate::push_mod))]
fn push_mod(text: &mut Text<'_>, depth: usize, name: &[u8])
    ensures { text.new ≡ text.old ⊳ push_mod depth name.now }
{
    put_line(text, depth, b"/// Nested message and enum types in `");
    text.put(name);
    text.put(b"`.\n");
    put_line(text, depth, b"pub mod ");
    put_snake(text, name);
    text.put(b" {\n");
}

// Is the file's syntax proto3?
fn is_proto3(part: &[u8]) -> bool
    ensures { result ≡ is_proto3 (syntax_of (decode_file part.now).syntax) }
{
    let header = FileHeader::new(part);
    matches!(Syntax::try_from(header.syntax), Ok(Syntax::Proto3))
}

// `proto3` goes beside the context: `append_struct` takes each by itself, so a struct of both would be opened for each message.

// The struct of a message with so many levels of messages in it, lent the rest of the text's buffer, as enum_text's `lend_enum`
// says. Messages with 15 levels in them stand at the depth 0.
fn put_struct(
    text: &mut Text<'_>,
    context: &Context<'_>,
    proto3: bool,
    scope: &[u8],
    message: &Message<'_>,
    left: usize,
)
    requires { left ≤ 15 }
    ensures { text.new ≡ text.old ▻ struct_text context.now.options context.now.set context.now.messages context.now.fields proto3 (15 - left) scope.now message.now.full message.now.nested message.now.number message.now.part }
{
    let at = text.place();
    let rest = &mut text.buffer[at..];
    let length = append_struct(rest, context, proto3, 15 - left, scope, message);
    text.skip(length);
}

// Here and below a bound on the levels left and the number: a struct of both would be made anew at each level.

// The module of a message, with so many levels of messages in it.
#[cycle(append_message_append_messages_append_module_lend_message)]
fn append_module(
    text: &mut Text<'_>,
    context: &Context<'_>,
    proto3: bool,
    message: &Message<'_>,
    left: usize,
)
    requires { (left ≤ 15) × (message.now.number + 1 + left < 2 ^ 64) }
    ensures { text.new ≡ text.old ▻ module_text context.now.options context.now.set context.now.messages context.now.fields proto3 (message_texts context.now.options context.now.set context.now.messages context.now.fields proto3 left) (15 - left) message.now.full message.now.nested message.now.number message.now.part }
{
    let depth = 15 - left;
    let inner = 16 - left;
    let first = message.number + 1;
    let nested = Parts::new(message.part, MESSAGE_NESTED_TYPE);
    push_mod(text, depth, message.name());
    append_messages(text, context, proto3, message.full, first, nested, left);
    append_enums(
        text,
        message.part,
        &context.options,
        inner,
        message.full,
        MESSAGE_ENUM_TYPE,
    );
    append_oneofs(text, context, inner, message);
    end(text, depth);
}

// A message with so many levels of messages in it, into the lent buffer, and its length.
#[cycle(append_message_append_messages_append_module_lend_message)]
fn append_message(
    buffer: &mut [u8],
    context: &Context<'_>,
    proto3: bool,
    scope: &[u8],
    number: usize,
    part: &[u8],
    left: usize,
) -> usize
    requires { (left ≤ 15) × (number + 1 + left < 2 ^ 64) }
    ensures { Filled buffer.old (message_text context.now.options context.now.set context.now.messages context.now.fields proto3 (message_texts context.now.options context.now.set context.now.messages context.now.fields proto3 left) (15 - left) scope.now (not (eqb left 0)) number part.now) buffer.new result }
{
    if is_entry(part) {
        return 0;
    }
    let full = Name::new(scope, joined::name_of(part));
    let full = full.as_bytes();
    let taken = takes(&context.options, full);
    if taken {
        return 0;
    }
    let message = Message {
        part,
        number,
        full,
        nested: left != 0,
    };
    let mut text = Text::new(buffer);
    put_struct(&mut text, context, proto3, scope, &message, left);
    let module = module_for(context, &message);
    if module {
        append_module(&mut text, context, proto3, &message, left);
    }
    text.length
}

// The same, lent the rest of the text's buffer.
#[cycle(append_message_append_messages_append_module_lend_message)]
fn lend_message(
    text: &mut Text<'_>,
    context: &Context<'_>,
    proto3: bool,
    scope: &[u8],
    number: usize,
    part: &[u8],
    left: usize,
)
    requires { (left ≤ 15) × (number + 1 + left < 2 ^ 64) }
    ensures { text.new ≡ text.old ▻ message_text context.now.options context.now.set context.now.messages context.now.fields proto3 (message_texts context.now.options context.now.set context.now.messages context.now.fields proto3 left) (15 - left) scope.now (not (eqb left 0)) number part.now }
{
    let at = text.place();
    let rest = &mut text.buffer[at..];
    let length = append_message(rest, context, proto3, scope, number, part, left);
    text.skip(length);
}

// Messages in a scope, the first with the number `first`; so many levels.
#[cycle(append_message_append_messages_append_module_lend_message)]
fn append_messages(
    text: &mut Text<'_>,
    context: &Context<'_>,
    proto3: bool,
    scope: &[u8],
    first: usize,
    messages: Parts<'_>,
    left: usize,
)
    requires { (left ≤ 16) × (first + left < 2 ^ 64) }
    ensures { text.new ≡ text.old ▻ message_texts context.now.options context.now.set context.now.messages context.now.fields proto3 left (16 - left) scope.now first messages.entry }
{
    if left == 0 {
        return;
    }
    for (number, part) in Numbered::new(context.messages, first, messages) {
        lend_message(text, context, proto3, scope, number, part, left - 1);
    }
}

/// The text of a file whose first message has the number `first`, into the lent buffer, and its length.
pub fn append_file(buffer: &mut [u8], context: &Context<'_>, first: usize, part: &[u8]) -> usize
    ensures { Filled buffer.old (text_of_file context.now.options context.now.set context.now.messages context.now.fields first part.now) buffer.new result }
{
    let scope = Name::package(part);
    let scope = scope.as_bytes();
    let proto3 = is_proto3(part);
    let messages = Parts::new(part, FILE_MESSAGE_TYPE);
    let mut text = Text::new(buffer);
    // all numbers past the table's end have one row
    let first = first.min(context.messages.len());
    append_messages(&mut text, context, proto3, scope, first, messages, 16);
    append_enums(&mut text, part, &context.options, 0, scope, FILE_ENUM_TYPE);
    text.length
}
