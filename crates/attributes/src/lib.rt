//! code_generator.rs: the lines that stand before a declaration, a field or a variant.
#![tactic(auto)]

ghost use Rattle.std.specs.Prelude.{◌≡◌};
ghost use Rattle.writer.specs.Text.{pick};
ghost use Rattle.options.specs.Kind.{kind_number};
ghost use Rattle.path.specs.PathMap.{get};
ghost use Rattle.context.specs.Context.{should_skip_debug};
ghost use Rattle.joined.specs.Joined.{fits};
ghost use Rattle.code_generator.specs.Piece.{◌⟫◌, piece, raw, when, push_indent};
ghost use Rattle.code_generator.specs.Writing.{◌⊳◌};
ghost use Rattle.code_generator.specs.Attributes.{line, end, attributes, derive, append_field_attributes, append_prost_path_attribute, append_skip_debug};
ghost use Rattle.attributes.specs.Lines.{attribute};

use joined::Name;
use options::{Kind, Options};
use path::Values;
use resolve::put_prost;
use writer::Text;

/// A line, or its start.
pub fn put_line(text: &mut Text<'_>, depth: usize, line: &[u8])
    ensures { text.new ≡ text.old ⊳ (push_indent depth ⟫ piece (raw line.now)) }
{
    text.put_indent(depth);
    text.put(line);
}

/// A line, where `on` holds.
pub fn put_line_if(text: &mut Text<'_>, depth: usize, on: bool, line: &[u8])
    ensures { text.new ≡ text.old ⊳ when on (push_indent depth ⟫ piece (raw line.now)) }
{
    if on {
        put_line(text, depth, line);
    }
}

/// The line that closes a block.
pub fn end(text: &mut Text<'_>, depth: usize)
    ensures { text.new ≡ text.old ⊳ end depth }
{
    put_line(text, depth, b"}\n");
}

/// One attribute on its line.
#[tactic(auto, unfolding(crate::specs::Lines::attribute))]
fn put_attribute(text: &mut Text<'_>, depth: usize, value: &[u8])
    ensures { text.new ≡ text.old ⊳ attribute depth value.now }
{
    put_line(text, depth, value);
    text.put(b"\n");
}

/// The values of all rows of a kind that match the path, each on a line.
#[tactic(auto, unfolding(code_generator::specs::Attributes::attributes, crate::specs::Lines::attribute))]
pub fn append_attributes(
    text: &mut Text<'_>,
    options: &Options<'_>,
    kind: Kind,
    path: &[u8],
    depth: usize,
)
    ensures { text.new ≡ text.old ⊳ attributes depth (get (kind_number kind) path.now options.now) }
{
    for value in Values::new(options, kind, path) {
        put_attribute(text, depth, value);
    }
}

/// The field attributes of a name in a message or enum. A path that no accepted set has is too long for the buffer, and has
/// none.
#[tactic(auto, unfolding(base::specs::Choose::choose, code_generator::specs::Attributes::append_field_attributes), using(crate::proofs::AttributeLaws::none_appended))]
pub fn append_field_attributes(
    text: &mut Text<'_>,
    options: &Options<'_>,
    full: &[u8],
    name: &[u8],
    depth: usize,
)
    ensures { text.new ≡ text.old ⊳ when (fits full.now name.now) (append_field_attributes options.now depth full.now name.now) }
{
    // without such a row no full name is made
    if !options.has(Kind::FieldAttribute) {
        return;
    }
    if let Some(path) = Name::whole(full, name) {
        append_attributes(text, options, Kind::FieldAttribute, path.as_bytes(), depth);
    }
}

/// `#[deprecated]`, where it is.
pub fn append_deprecated(text: &mut Text<'_>, depth: usize, deprecated: bool)
    ensures { text.new ≡ text.old ⊳ when deprecated (line depth "#[deprecated]\n") }
{
    put_line_if(text, depth, deprecated, b"#[deprecated]\n");
}

/// The derives of a struct or a oneof's enum; `what` ends the line.
#[tactic(auto, unfolding(code_generator::specs::Attributes::derive))]
pub fn derive(
    text: &mut Text<'_>,
    options: &Options<'_>,
    depth: usize,
    copy: bool,
    eq: bool,
    what: &[u8],
)
    ensures { text.new ≡ text.old ⊳ derive options.now depth copy eq what.now }
{
    put_line(text, depth, b"#[derive(Clone, ");
    text.put_if(copy, b"Copy, ");
    text.put(b"PartialEq, ");
    text.put_if(eq, b"Eq, Hash, ");
    put_prost(text, options);
    text.put(what);
}

/// The line that names the prost path, without an indent: only with a row for it.
#[tactic(auto, unfolding(code_generator::specs::Attributes::append_prost_path_attribute), using(options::proofs::FindLaws::found_any))]
pub fn append_prost_path_attribute(text: &mut Text<'_>, options: &Options<'_>)
    ensures { text.new ≡ text.old ⊳ append_prost_path_attribute options.now }
{
    if options.has(Kind::ProstPath) {
        text.put(b"#[prost(prost_path = \"");
        text.put(options.prost_path());
        text.put(b"\")]\n");
    }
}

/// Does a row ask that the `Debug` of a type is left to the user?
#[tactic(auto, using(crate::proofs::AttributeLaws::number_there))]
pub fn should_skip_debug(options: &Options<'_>, full: &[u8]) -> bool
    ensures { result ≡ should_skip_debug options.now full.now }
{
    path::get_first(options, Kind::SkipDebug, full).is_some()
}

/// The line that leaves `Debug` to the user, where a row asks for it.
#[tactic(auto, unfolding(code_generator::specs::Attributes::append_skip_debug))]
pub fn append_skip_debug(text: &mut Text<'_>, options: &Options<'_>, depth: usize, full: &[u8])
    ensures { text.new ≡ text.old ⊳ append_skip_debug options.now depth full.now }
{
    let skips = should_skip_debug(options, full);
    put_line_if(text, depth, skips, b"#[prost(skip_debug)]\n");
}
