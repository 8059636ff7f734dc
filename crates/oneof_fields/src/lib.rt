//! code_generator.rs, append_oneof_field: the fields of a struct for its message's oneofs.
#![tactic(auto)]

ghost use Rattle.std.specs.Prelude.{◌≡◌, ◌++◌, [], map};
ghost use Rattle.base.specs.Bytes.{b};
ghost use Rattle.writer.specs.Text.{pick};
ghost use Rattle.writer.specs.Decimal.{decimal};
ghost use Rattle.writer.specs.Writing.{◌▻◌};
ghost use Rattle.members.specs.Members.{field_at, oneof_members};
ghost use Rattle.code_generator.specs.Writing.{◌⊳◌};
ghost use Rattle.code_generator.specs.Oneofs.{tags, oneof_path, oneof_tag, oneof_line};
ghost use Rattle.oneof_fields.specs.OneofFields.{oneof_field_text, oneof_field_texts};
ghost use Rattle.oneof_fields.specs.Named.{oneof_with, oneof_named};

use attributes::{append_field_attributes, put_line};
use context::Context;
use ident::text::put_snake;
use members::{Message, Oneof, field_at};
use writer::Text;

// The number of a field, behind `, ` where there are more before it.
#[tactic(auto, using(crate::proofs::TagLaws::tag_written))]
fn put_tag(text: &mut Text<'_>, more: bool, number: u32)
    ensures { text.new ≡ text.old ▻ (pick more (b ", ") [] ++ decimal number) }
{
    text.put_if(more, b", ");
    text.put_number(number);
}

// The numbers of the fields of a oneof.
fn tags(text: &mut Text<'_>, context: &Context<'_>, oneof: &Oneof<'_>)
    ensures { text.new ≡ text.old ⊳ tags (map (field_at context.now.set context.now.fields) (oneof_members context.now.fields oneof.now)) }
{
    let mut members = oneof.members(context);
    if let Some(first) = members.next() {
        put_tag(text, false, field_at(context, first).number());
    }
    for k in members {
        put_tag(text, true, field_at(context, k).number());
    }
}

// The path of a oneof's type, from where the struct of its message, whose name `message` is, stands.
#[tactic(auto, using(crate::proofs::PathLaws::path_written))]
fn oneof_path(text: &mut Text<'_>, message: &[u8], oneof: &Oneof<'_>)
    ensures { text.new ≡ text.old ⊳ oneof_path [] message.now (oneof_named oneof.now.name oneof.now.conflict) }
{
    put_snake(text, message);
    text.put(b"::");
    oneof.put_type(text);
}

// The line of a oneof's field.
#[tactic(auto, unfolding(code_generator::specs::Oneofs::oneof_line))]
fn oneof_line(text: &mut Text<'_>, depth: usize, message: &[u8], oneof: &Oneof<'_>)
    ensures { text.new ≡ text.old ⊳ oneof_line depth [] message.now (oneof_named oneof.now.name oneof.now.conflict) }
{
    put_line(text, depth, b"pub ");
    put_snake(text, oneof.name);
    text.put(b": ");
    text.put(b"::core::option::Option<");
    oneof_path(text, message, oneof);
    text.put(b">");
    text.put(b",\n");
}

// The tag of a oneof's field, from behind `#[prost(` on.
#[tactic(auto, unfolding(code_generator::specs::Oneofs::oneof_tag))]
fn oneof_tag(text: &mut Text<'_>, context: &Context<'_>, message: &[u8], oneof: &Oneof<'_>)
    ensures { text.new ≡ text.old ⊳ oneof_tag [] message.now (oneof_with (map (field_at context.now.set context.now.fields) (oneof_members context.now.fields oneof.now)) oneof.now.name oneof.now.conflict) }
{
    text.put(b"oneof = \"");
    oneof_path(text, message, oneof);
    text.put(b"\", tags = \"");
    tags(text, context, oneof);
    text.put(b"\")]\n");
}

// The field for a oneof of a message with this name.
#[tactic(auto, unfolding(crate::specs::OneofFields::oneof_field_text, code_generator::specs::Oneofs::oneof_line))]
fn append_oneof_field(
    text: &mut Text<'_>,
    context: &Context<'_>,
    depth: usize,
    message: &Message<'_>,
    name: &[u8],
    oneof: &Oneof<'_>,
)
    ensures { text.new ≡ text.old ⊳ oneof_field_text context.now.options context.now.set context.now.messages context.now.fields depth message.now.full name.now oneof.now.name oneof.now.conflict (oneof_members context.now.fields oneof.now) }
{
    put_line(text, depth, b"#[prost(");
    oneof_tag(text, context, name, oneof);
    append_field_attributes(text, &context.options, message.full, oneof.name, depth);
    oneof_line(text, depth, name, oneof);
}

/// The fields of a struct for the oneofs of its message: one left without fields is left out.
pub fn append_oneof_fields(
    text: &mut Text<'_>,
    context: &Context<'_>,
    depth: usize,
    message: &Message<'_>,
)
    ensures { text.new ≡ text.old ▻ oneof_field_texts context.now.options context.now.set context.now.messages context.now.fields depth message.now.full message.now.nested message.now.number message.now.part }
{
    if !message.declares_oneofs() {
        return;
    }
    // once for all oneofs: the name is read from the message's bytes
    let name = message.name();
    for oneof in message.oneofs(context) {
        append_oneof_field(text, context, depth, message, name, &oneof);
    }
}
