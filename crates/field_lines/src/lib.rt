//! A field's line.
#![tactic(auto)]

ghost use Rattle.std.specs.Prelude.{◌≡◌, []};
ghost use Rattle.code_generator.specs.Piece.{◌⟫◌, lit};
ghost use Rattle.code_generator.specs.Writing.{◌⊳◌};
ghost use Rattle.code_generator.specs.Attributes.{line};
ghost use Rattle.code_generator.specs.Fields.{shape_open, shape_close, box_open, box_close, field_name, field_line};

use descriptor::FieldDescriptor;
use field_tags::optional;
use ident::text::put_snake;
use options::Options;
use resolve::{put_prost, resolve_type};
use writer::Text;

/// `Vec` or `Option` around a field's type, where it has one.
#[tactic(auto, unfolding(code_generator::specs::Fields::shape_open))]
fn shape_open(text: &mut Text<'_>, options: &Options<'_>, proto3: bool, field: &FieldDescriptor<'_>)
    ensures { text.new ≡ text.old ⊳ shape_open options.now proto3 field.now }
{
    if field.is_repeated() {
        put_prost(text, options);
        text.put(b"::alloc::vec::Vec<");
    } else {
        text.put_if(optional(proto3, field), b"::core::option::Option<");
    }
}

#[tactic(auto, unfolding(code_generator::specs::Fields::shape_close))]
fn shape_close(text: &mut Text<'_>, proto3: bool, field: &FieldDescriptor<'_>)
    ensures { text.new ≡ text.old ⊳ shape_close proto3 field.now }
{
    text.put_if(field.is_repeated() || optional(proto3, field), b">");
}

/// The start of a `Box`, where the value is boxed.
#[tactic(auto, unfolding(code_generator::specs::Fields::box_open))]
pub fn box_open(text: &mut Text<'_>, options: &Options<'_>, boxed: bool)
    ensures { text.new ≡ text.old ⊳ box_open options.now boxed }
{
    if boxed {
        put_prost(text, options);
        text.put(b"::alloc::boxed::Box<");
    }
}

/// The end of a `Box`, where the value is boxed.
#[tactic(auto, unfolding(code_generator::specs::Fields::box_close))]
pub fn box_close(text: &mut Text<'_>, boxed: bool)
    ensures { text.new ≡ text.old ⊳ box_close boxed }
{
    text.put_if(boxed, b">");
}

/// The start of a field's line, up to its type.
pub fn line_start(text: &mut Text<'_>, depth: usize, field: &FieldDescriptor<'_>)
    ensures { text.new ≡ text.old ⊳ (line depth "pub " ⟫ field_name [] field.now ⟫ lit ": ") }
{
    text.put_indent(depth);
    text.put(b"pub ");
    put_snake(text, field.name());
    text.put(b": ");
}

// What is written from goes in one by one, in `field_line` and in field_tags' `field_tag`, as the definitions take it: each of these is
// called in one place, so a struct would be made for that call.

/// A field's line. `scope` is where the struct stands; `bytes`: the field's bytes are `Bytes`.
#[tactic(auto, unfolding(code_generator::specs::Fields::field_line))]
pub fn field_line(
    text: &mut Text<'_>,
    options: &Options<'_>,
    proto3: bool,
    depth: usize,
    scope: &[u8],
    field: &FieldDescriptor<'_>,
    boxed: bool,
    bytes: bool,
)
    ensures { text.new ≡ text.old ⊳ field_line options.now proto3 depth scope.now [] field.now boxed bytes }
{
    line_start(text, depth, field);
    shape_open(text, options, proto3, field);
    box_open(text, options, boxed);
    resolve_type(text, options, scope, field, bytes);
    box_close(text, boxed);
    shape_close(text, proto3, field);
    text.put(b",\n");
}
