//! code_generator.rs, resolve_ident and resolve_type.
#![tactic(auto)]

ghost use Rattle.std.specs.Prelude.{◌≡◌};
ghost use Rattle.code_generator.specs.Piece.{◌⟫◌, piece, raw};
ghost use Rattle.code_generator.specs.Writing.{◌⊳◌};
ghost use Rattle.code_generator.specs.Resolve.{prost, resolve_ident, resolve_bytes, resolve_type, tag_ident, field_type_tag, map_value_type_tag};

use descriptor::FieldDescriptor;
use extern_paths::resolve;
use field_types::Sort;
use options::Options;
use way::put_way;
use writer::Text;

/// The path of prost in Rust.
#[tactic(auto, using(crate::proofs::ProstLaws::prost_written))]
pub fn put_prost(text: &mut Text<'_>, options: &Options<'_>)
    ensures { text.new ≡ text.old ⊳ prost options.now }
{
    text.put(options.prost_path());
}

/// What is written for the full name of a type in a scope: by an extern path, or the way to it.
#[tactic(auto, unfolding(code_generator::specs::Resolve::resolve_ident))]
pub fn resolve_ident(text: &mut Text<'_>, options: &Options<'_>, scope: &[u8], ident: &[u8])
    ensures { text.new ≡ text.old ⊳ resolve_ident options.now scope.now ident.now }
{
    match resolve::find(options, ident) {
        Some(by) => resolve::put_by(text, &by, ident),
        None => put_way(text, scope, ident),
    }
}

// A flag says whether bytes are `Bytes`, here and in the crates above: the setting is there or not, as the options give it, and the
// definitions take a Bool.

/// The Rust type of bytes: `Bytes`, or a Vec.
#[tactic(auto, unfolding(code_generator::specs::Resolve::resolve_bytes))]
fn resolve_bytes(text: &mut Text<'_>, options: &Options<'_>, bytes: bool)
    ensures { text.new ≡ text.old ⊳ resolve_bytes options.now bytes }
{
    put_prost(text, options);
    if bytes {
        text.put(b"::bytes::Bytes");
    } else {
        text.put(b"::alloc::vec::Vec<");
        text.put(b"u8>");
    }
}

/// The Rust type of a field's values; bytes are `Bytes` where `bytes` holds.
#[tactic(auto, unfolding(code_generator::specs::Resolve::resolve_type))]
pub fn resolve_type(
    text: &mut Text<'_>,
    options: &Options<'_>,
    scope: &[u8],
    field: &FieldDescriptor<'_>,
    bytes: bool,
)
    ensures { text.new ≡ text.old ⊳ resolve_type options.now scope.now bytes field.now }
{
    match field_types::sort_of(field.kind()) {
        Some(Sort::Text) => {
            put_prost(text, options);
            text.put(b"::alloc::string::String");
        }
        Some(Sort::Bytes) => resolve_bytes(text, options, bytes),
        Some(Sort::Group | Sort::Message) => resolve_ident(text, options, scope, field.type_name()),
        _ => text.put(field_types::rust_word(field.kind())),
    }
}

/// An enum's path in a tag, between what stands before it and behind it.
#[tactic(auto, unfolding(code_generator::specs::Resolve::tag_ident))]
fn put_enumeration(
    text: &mut Text<'_>,
    options: &Options<'_>,
    scope: &[u8],
    field: &FieldDescriptor<'_>,
    before: &[u8],
    behind: &[u8],
)
    ensures { text.new ≡ text.old ⊳ (piece (raw before.now) ⟫ tag_ident options.now scope.now field.now ⟫ piece (raw behind.now)) }
{
    text.put(before);
    resolve_ident(text, options, scope, field.type_name());
    text.put(behind);
}

/// The type in a field's tag. It goes by the type's sort, as the definition does, and `FieldDescriptor::is_enum` by its number.
#[tactic(auto, unfolding(code_generator::specs::Resolve::field_type_tag))]
pub fn field_type_tag(
    text: &mut Text<'_>,
    options: &Options<'_>,
    scope: &[u8],
    field: &FieldDescriptor<'_>,
)
    ensures { text.new ≡ text.old ⊳ field_type_tag options.now scope.now field.now }
{
    if matches!(field_types::sort_of(field.kind()), Some(Sort::Enumerated)) {
        put_enumeration(text, options, scope, field, b"enumeration = \"", b"\"");
    } else {
        text.put(field_types::tag_word(field.kind()));
    }
}

/// The type of a map's values in its tag.
#[tactic(auto, unfolding(code_generator::specs::Resolve::map_value_type_tag))]
pub fn map_value_type_tag(
    text: &mut Text<'_>,
    options: &Options<'_>,
    scope: &[u8],
    field: &FieldDescriptor<'_>,
)
    ensures { text.new ≡ text.old ⊳ map_value_type_tag options.now scope.now field.now }
{
    if matches!(field_types::sort_of(field.kind()), Some(Sort::Enumerated)) {
        put_enumeration(text, options, scope, field, b"enumeration(", b")");
    } else {
        field_type_tag(text, options, scope, field);
    }
}
