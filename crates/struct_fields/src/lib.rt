//! code_generator.rs, append_field and append_map_field: the fields of a struct.
#![tactic(auto)]

ghost use Rattle.std.specs.Prelude.{◌≡◌, ◌-◌, map};
ghost use Rattle.descriptor.specs.Decode.{entries, parts, decode_field};
ghost use Rattle.descriptor.specs.Seen.{option_seen};
ghost use Rattle.text_tables.specs.Rows.{field_row, is_plain};
ghost use Rattle.members.specs.Members.{map_entry_at, numbers_where};
ghost use Rattle.code_generator.specs.MapFields.{entry_of};
ghost use Rattle.code_generator.specs.Piece.{when};
ghost use Rattle.code_generator.specs.Writing.{◌⊳◌};
ghost use Rattle.struct_fields.specs.StructFields.{plain_text, map_text, field_text, field_texts};

use attributes::{append_deprecated, append_field_attributes, put_line};
use context::Context;
use descriptor::FieldDescriptor;
use descriptor::field_number::MESSAGE_FIELD;
use field_lines::field_line;
use field_tags::field_tag;
use map_fields::{MapEntry, MapSettings, map_line, map_tag};
use members::{field_at, is_boxed, is_deprecated, setting};
use options::Kind;
use parts::Parts;
use std::ops::Range;
use writer::Text;

/// The struct whose fields are written.
#[derive(Clone, Copy)]
pub struct Struct<'a> {
    pub proto3: bool,
    /// How deep its fields stand.
    pub depth: usize,
    /// Where it stands.
    pub scope: &'a [u8],
    /// The message's full name.
    pub full: &'a [u8],
}

// The first two fields of the map entry whose bytes these are, where it has two.
fn entry_fields(entry: &[u8]) -> Option<MapEntry<'_>>
    ensures { option_seen result ≡ entry_of (map decode_field (parts 2 (entries entry.now))) }
{
    let mut fields = Parts::new(entry, MESSAGE_FIELD);
    let key = fields.next()?;
    let value = fields.next()?;
    Some(MapEntry {
        key: FieldDescriptor::new(key),
        value: FieldDescriptor::new(value),
    })
}

// The map entry that field k names, if it names one.
#[tactic(auto, unfolding(members::specs::Members::entry_at))]
fn map_entry_at<'a>(context: &Context<'a>, k: usize) -> Option<MapEntry<'a>>
    ensures { option_seen result ≡ map_entry_at context.now.set context.now.fields k }
{
    let place = text_tables::field_row(context.fields, k).entry?;
    entry_fields(place.bytes_in(context.set))
}

// append_field: field k.
#[tactic(auto, unfolding(crate::specs::StructFields::plain_text, crate::specs::StructFields::attributes_at, members::specs::Members::boxed_at, code_generator::specs::Attributes::append_deprecated))]
fn append_field(text: &mut Text<'_>, context: &Context<'_>, of: &Struct<'_>, k: usize)
    ensures { text.new ≡ text.old ⊳ plain_text context.now.options context.now.set context.now.fields of.now.proto3 of.now.depth of.now.scope.now of.now.full.now k }
{
    let options = &context.options;
    let field = field_at(context, k);
    let name = field.name();
    let row = text_tables::field_row(context.fields, k);
    let boxed = is_boxed(options, &row, &field, of.full);
    let bytes = setting(options, Kind::Bytes, of.full, name);
    append_deprecated(text, of.depth, is_deprecated(&field));
    put_line(text, of.depth, b"#[prost(");
    field_tag(text, options, of.proto3, of.scope, &field, boxed, bytes);
    append_field_attributes(text, options, of.full, name, of.depth);
    field_line(
        text, options, of.proto3, of.depth, of.scope, &field, boxed, bytes,
    );
}

// append_map_field: field k, which names a map entry.
#[tactic(auto, unfolding(crate::specs::StructFields::map_text, crate::specs::StructFields::attributes_at))]
fn append_map_field(
    text: &mut Text<'_>,
    context: &Context<'_>,
    of: &Struct<'_>,
    k: usize,
    entry: &MapEntry<'_>,
)
    ensures { text.new ≡ text.old ⊳ map_text context.now.options context.now.set context.now.fields of.now.proto3 of.now.depth of.now.scope.now of.now.full.now k entry.now }
{
    let options = &context.options;
    let field = field_at(context, k);
    let name = field.name();
    let settings = MapSettings {
        btree: setting(options, Kind::BtreeMap, of.full, name),
        key_bytes: setting(options, Kind::Bytes, of.full, entry.key.name()),
        value_bytes: setting(options, Kind::Bytes, of.full, entry.value.name()),
    };
    put_line(text, of.depth, b"#[prost(");
    map_tag(text, options, of.scope, &field, entry, settings.btree);
    append_field_attributes(text, options, of.full, name, of.depth);
    map_line(text, options, of.depth, of.scope, &field, entry, settings);
}

// Field k: one that names a map entry is a map.
#[tactic(auto, unfolding(crate::specs::StructFields::field_text))]
fn field_or_map(text: &mut Text<'_>, context: &Context<'_>, of: &Struct<'_>, k: usize)
    ensures { text.new ≡ text.old ⊳ field_text context.now.options context.now.set context.now.fields of.now.proto3 of.now.depth of.now.scope.now of.now.full.now k }
{
    match map_entry_at(context, k) {
        Some(entry) => append_map_field(text, context, of, k, &entry),
        None => append_field(text, context, of, k),
    }
}

// Field k, where it is in no oneof.
fn append_if_free(text: &mut Text<'_>, context: &Context<'_>, of: &Struct<'_>, k: usize)
    ensures { text.new ≡ text.old ⊳ when (is_plain (field_row context.now.fields k)) (field_text context.now.options context.now.set context.now.fields of.now.proto3 of.now.depth of.now.scope.now of.now.full.now k) }
{
    if text_tables::field_row(context.fields, k).is_plain() {
        field_or_map(text, context, of, k);
    }
}

/// The fields of a struct that are in no oneof, of those with these numbers.
pub fn append_each_field(
    text: &mut Text<'_>,
    context: &Context<'_>,
    of: &Struct<'_>,
    fields: Range<usize>,
)
    ensures { text.new ≡ text.old ⊳ field_texts context.now.options context.now.set context.now.fields of.now.proto3 of.now.depth of.now.scope.now of.now.full.now (numbers_where is_plain context.now.fields (fields.end - fields.start) fields.start) }
{
    for k in fields {
        append_if_free(text, context, of, k);
    }
}
