//! code_generator.rs, append_message: a message's struct.
#![tactic(auto)]

ghost use Rattle.std.specs.Prelude.{◌≡◌};
ghost use Rattle.writer.specs.Draft.{Filled};
ghost use Rattle.code_generator.specs.Writing.{◌⊳◌};
ghost use Rattle.struct_text.specs.StructText.{struct_head, struct_text};

use attributes::{
    append_attributes, append_prost_path_attribute, append_skip_debug, derive, end, put_line,
};
use context::Context;
use ident::text::put_upper_camel;
use members::Message;
use oneof_fields::append_oneof_fields;
use options::Kind;
use struct_fields::{Struct, append_each_field};
use text_tables::message_row;
use writer::Text;

// Up to the struct's fields.
#[tactic(auto, unfolding(crate::specs::StructText::struct_head, code_generator::specs::Attributes::append_type_attributes, code_generator::specs::Attributes::append_message_attributes))]
fn struct_head(text: &mut Text<'_>, context: &Context<'_>, depth: usize, message: &Message<'_>)
    ensures { text.new ≡ text.old ⊳ struct_head context.now.options context.now.messages depth message.now.full message.now.number message.now.part }
{
    let options = &context.options;
    let row = message_row(context.messages, message.number);
    let name = message.name();
    append_attributes(text, options, Kind::TypeAttribute, message.full, depth);
    append_attributes(text, options, Kind::MessageAttribute, message.full, depth);
    derive(text, options, depth, row.copy, row.eq, b"::Message)]\n");
    append_prost_path_attribute(text, options);
    append_skip_debug(text, options, depth, message.full);
    put_line(text, depth, b"pub struct ");
    put_upper_camel(text, name);
    text.put(b" {\n");
}

/// The struct of a message that stands in the scope, into the lent buffer, and its length.
pub fn append_struct(
    buffer: &mut [u8],
    context: &Context<'_>,
    proto3: bool,
    depth: usize,
    scope: &[u8],
    message: &Message<'_>,
) -> usize
    ensures { Filled buffer.old (struct_text context.now.options context.now.set context.now.messages context.now.fields proto3 depth scope.now message.now.full message.now.nested message.now.number message.now.part) buffer.new result }
{
    let of = Struct {
        proto3,
        depth: depth.saturating_add(1),
        scope,
        full: message.full,
    };
    let mut text = Text::new(buffer);
    struct_head(&mut text, context, depth, message);
    append_each_field(&mut text, context, &of, message.fields(context.messages));
    append_oneof_fields(&mut text, context, of.depth, message);
    end(&mut text, depth);
    text.length
}
