//! A map field's tag and line.
#![tactic(auto)]

ghost use Rattle.std.specs.Prelude.{◌≡◌, []};
ghost use Rattle.code_generator.specs.Writing.{◌⊳◌};
ghost use Rattle.code_generator.specs.MapFields.{map_tag, map_open, map_line};

use descriptor::FieldDescriptor;
use field_lines::line_start;
use options::Options;
use resolve::{field_type_tag, map_value_type_tag, put_prost, resolve_type};
use std::marker::Model;
use writer::Text;

/// The fields of a map entry.
#[derive(Drop)]
pub struct MapEntry<'a> {
    pub key: FieldDescriptor<'a>,
    pub value: FieldDescriptor<'a>,
}

impl<'a> Model for MapEntry<'a> {
    ghost use Rattle.code_generator.specs.MapFields.{MapEntry};

    ghost Value = { MapEntry };

    ghost view = { λ entry. record { key = entry.key; value = entry.value } };
}

/// What the options set for a map field: flags, since each setting is there or not.
#[derive(Clone, Copy)]
pub struct MapSettings {
    /// The map is a `BTreeMap`.
    pub btree: bool,
    /// The key's bytes are `Bytes`.
    pub key_bytes: bool,
    /// The value's bytes are `Bytes`.
    pub value_bytes: bool,
}

/// A map field's tag, from behind `#[prost(` on. `btree`: the map is a `BTreeMap`.
#[tactic(auto, unfolding(code_generator::specs::MapFields::map_tag))]
pub fn map_tag(
    text: &mut Text<'_>,
    options: &Options<'_>,
    scope: &[u8],
    field: &FieldDescriptor<'_>,
    entry: &MapEntry<'_>,
    btree: bool,
)
    ensures { text.new ≡ text.old ⊳ map_tag options.now scope.now field.now entry.now btree }
{
    text.put(collections::map_type(btree).annotation());
    text.put(b" = \"");
    field_type_tag(text, options, scope, &entry.key);
    text.put(b", ");
    map_value_type_tag(text, options, scope, &entry.value);
    text.put(b"\", tag = \"");
    text.put_number(field.number());
    text.put(b"\")]\n");
}

#[tactic(auto, unfolding(code_generator::specs::MapFields::map_open))]
fn map_open(text: &mut Text<'_>, options: &Options<'_>, btree: bool)
    ensures { text.new ≡ text.old ⊳ map_open options.now btree }
{
    if btree {
        put_prost(text, options);
        text.put(b"::alloc::collections::BTreeMap<");
    } else {
        text.put(b"::std::collections::HashMap<");
    }
}

/// A map field's line. `scope` is where the struct stands.
#[tactic(auto, unfolding(code_generator::specs::MapFields::map_line))]
pub fn map_line(
    text: &mut Text<'_>,
    options: &Options<'_>,
    depth: usize,
    scope: &[u8],
    field: &FieldDescriptor<'_>,
    entry: &MapEntry<'_>,
    settings: MapSettings,
)
    ensures { text.new ≡ text.old ⊳ map_line options.now depth scope.now [] field.now entry.now settings.btree settings.key_bytes settings.value_bytes }
{
    line_start(text, depth, field);
    map_open(text, options, settings.btree);
    resolve_type(text, options, scope, &entry.key, settings.key_bytes);
    text.put(b", ");
    resolve_type(text, options, scope, &entry.value, settings.value_bytes);
    text.put(b">");
    text.put(b",\n");
}
