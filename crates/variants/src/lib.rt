//! code_generator.rs, append_oneof: the variants of a oneof's enum.
#![tactic(auto)]

ghost use Rattle.std.specs.Prelude.{◌≡◌, []};
ghost use Rattle.members.specs.Members.{oneof_members};
ghost use Rattle.code_generator.specs.Writing.{◌⊳◌};
ghost use Rattle.code_generator.specs.Oneofs.{variant_tag, variant_line};
ghost use Rattle.variants.specs.Variants.{variant_text, variant_texts};

use attributes::{append_deprecated, append_field_attributes, put_line};
use context::Context;
use descriptor::FieldDescriptor;
use field_lines::{box_close, box_open};
use ident::text::put_upper_camel;
use members::{Oneof, field_at, is_boxed, is_deprecated, setting};
use options::{Kind, Options};
use resolve::{field_type_tag, resolve_type};
use writer::Text;

// A variant's tag, from behind `#[prost(` on. full: the message's full name.
#[tactic(auto, unfolding(code_generator::specs::Oneofs::variant_tag))]
fn variant_tag(text: &mut Text<'_>, options: &Options<'_>, full: &[u8], field: &FieldDescriptor<'_>)
    ensures { text.new ≡ text.old ⊳ variant_tag options.now full.now field.now }
{
    field_type_tag(text, options, full, field);
    text.put(b", tag = \"");
    text.put_number(field.number());
    text.put(b"\")]\n");
}

// The line of a variant; its bytes are `Bytes` where `bytes` holds.
#[tactic(auto, unfolding(code_generator::specs::Oneofs::variant_line))]
fn variant_line(
    text: &mut Text<'_>,
    options: &Options<'_>,
    depth: usize,
    full: &[u8],
    field: &FieldDescriptor<'_>,
    boxed: bool,
    bytes: bool,
)
    ensures { text.new ≡ text.old ⊳ variant_line options.now depth full.now [] field.now boxed bytes }
{
    text.put_indent(depth);
    put_upper_camel(text, field.name());
    text.put(b"(");
    box_open(text, options, boxed);
    resolve_type(text, options, full, field, bytes);
    box_close(text, boxed);
    text.put(b"),\n");
}

/// Field k of the set as a variant of the oneof whose full name `path` is. full: the message's.
#[tactic(auto, unfolding(crate::specs::Variants::variant_text, members::specs::Members::boxed_at, code_generator::specs::Attributes::append_deprecated))]
pub fn append_variant(
    text: &mut Text<'_>,
    context: &Context<'_>,
    depth: usize,
    full: &[u8],
    path: &[u8],
    k: usize,
)
    ensures { text.new ≡ text.old ⊳ variant_text context.now.options context.now.set context.now.fields depth full.now path.now k }
{
    let options = &context.options;
    let field = field_at(context, k);
    append_deprecated(text, depth, is_deprecated(&field));
    put_line(text, depth, b"#[prost(");
    variant_tag(text, options, full, &field);
    append_field_attributes(text, options, path, field.name(), depth);
    let row = text_tables::field_row(context.fields, k);
    let boxed = is_boxed(options, &row, &field, path);
    let bytes = setting(options, Kind::Bytes, full, field.name());
    variant_line(text, options, depth, full, &field, boxed, bytes);
}

/// The fields of a oneof, whose full name `path` is. full: the message's.
#[tactic(auto, unfolding(crate::specs::Variants::variant_texts))]
pub fn append_variants(
    text: &mut Text<'_>,
    context: &Context<'_>,
    depth: usize,
    full: &[u8],
    path: &[u8],
    oneof: &Oneof<'_>,
)
    ensures { text.new ≡ text.old ⊳ variant_texts context.now.options context.now.set context.now.fields depth full.now path.now (oneof_members context.now.fields oneof.now) }
{
    for k in oneof.members(context) {
        append_variant(text, context, depth, full, path, k);
    }
}
