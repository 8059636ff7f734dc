//! A field's tag.
#![tactic(auto)]

ghost use Rattle.std.specs.Prelude.{◌≡◌};
ghost use Rattle.code_generator.specs.Piece.{piece, name};
ghost use Rattle.code_generator.specs.Writing.{◌⊳◌};
ghost use Rattle.code_generator.specs.Fields.{optional, unpacked, label_tag, bytes_annotation, enum_value, default_text, default_tag, field_tag};

use descriptor::{FieldDescriptor, LABEL_OPTIONAL};
use field_types::Sort;
use options::Options;
use resolve::field_type_tag;
use writer::Text;

// Label
const LABEL_REQUIRED: u32 = 2;

/// Is a field's value an `Option`?
#[tactic(auto, unfolding(code_generator::specs::Fields::optional))]
pub fn optional(proto3: bool, field: &FieldDescriptor<'_>) -> bool
    ensures { result ≡ optional proto3 field.now }
{
    field.proto3_optional || (field.label() == LABEL_OPTIONAL && (field.is_message() || !proto3))
}

/// Is a repeated field that could be packed not packed?
#[tactic(auto, unfolding(code_generator::specs::Fields::unpacked))]
fn is_unpacked(proto3: bool, field: &FieldDescriptor<'_>) -> bool
    ensures { result ≡ unpacked proto3 field.now }
{
    field_types::can_pack(field.kind()) && field.options.map_or(!proto3, |options| !options.packed)
}

#[tactic(auto, unfolding(code_generator::specs::Fields::label_tag))]
fn label_tag(text: &mut Text<'_>, proto3: bool, field: &FieldDescriptor<'_>)
    ensures { text.new ≡ text.old ⊳ label_tag proto3 field.now }
{
    // labels and types by number, as the definitions have them: they are over any number that a set may give
    match field.label() {
        LABEL_OPTIONAL => text.put_if(optional(proto3, field), b", optional"),
        LABEL_REQUIRED => text.put(b", required"),
        _ => {
            text.put(b", repeated");
            text.put_if(is_unpacked(proto3, field), b", packed = \"false\"");
        }
    }
}

/// The type of a bytes field; `bytes`: it is `Bytes`.
#[tactic(auto, unfolding(code_generator::specs::Fields::bytes_annotation))]
fn bytes_annotation(text: &mut Text<'_>, field: &FieldDescriptor<'_>, bytes: bool)
    ensures { text.new ≡ text.old ⊳ bytes_annotation field.now bytes }
{
    if matches!(field_types::sort_of(field.kind()), Some(Sort::Bytes)) {
        text.put(b" = \"");
        text.put(collections::bytes_type(bytes).annotation());
        text.put(b"\"");
    }
}

/// The name of an enum's value that is a default.
#[tactic(auto, unfolding(code_generator::specs::Fields::enum_value))]
fn enum_value(text: &mut Text<'_>, options: &Options<'_>, field: &FieldDescriptor<'_>, value: &[u8])
    ensures { text.new ≡ text.old ⊳ piece (name (enum_value options.now field.now value.now)) }
{
    if options.strips_enum_prefix() {
        ident::text::put_variant(text, way::last_name(field.type_name()), value);
    } else {
        ident::text::put_upper_camel(text, value);
    }
}

/// A default's value in a tag.
#[tactic(auto, unfolding(code_generator::specs::Fields::default_text))]
fn default_text(
    text: &mut Text<'_>,
    options: &Options<'_>,
    field: &FieldDescriptor<'_>,
    value: &[u8],
)
    ensures { text.new ≡ text.old ⊳ default_text options.now field.now value.now }
{
    match field_types::sort_of(field.kind()) {
        Some(Sort::Bytes) => {
            text.put(b"b\\\"");
            c_escaping::escape_unescaped(text, value);
            text.put(b"\\\"");
        }
        Some(Sort::Enumerated) => enum_value(text, options, field, value),
        _ => literal::escape_text(text, value),
    }
}

#[tactic(auto, unfolding(code_generator::specs::Fields::default_tag))]
fn default_tag(text: &mut Text<'_>, options: &Options<'_>, field: &FieldDescriptor<'_>)
    ensures { text.new ≡ text.old ⊳ default_tag options.now field.now }
{
    if let Some(value) = field.default_value {
        text.put(b"\", default = \"");
        default_text(text, options, field, value);
    }
}

/// A field's tag, from behind `#[prost(` on. `scope` is where the struct stands; `bytes`: the field's bytes are `Bytes`.
#[tactic(auto, unfolding(code_generator::specs::Fields::field_tag))]
pub fn field_tag(
    text: &mut Text<'_>,
    options: &Options<'_>,
    proto3: bool,
    scope: &[u8],
    field: &FieldDescriptor<'_>,
    boxed: bool,
    bytes: bool,
)
    ensures { text.new ≡ text.old ⊳ field_tag options.now proto3 scope.now field.now boxed bytes }
{
    field_type_tag(text, options, scope, field);
    bytes_annotation(text, field, bytes);
    label_tag(text, proto3, field);
    text.put_if(boxed, b", boxed");
    text.put(b", tag = \"");
    text.put_number(field.number());
    default_tag(text, options, field);
    text.put(b"\")]\n");
}
