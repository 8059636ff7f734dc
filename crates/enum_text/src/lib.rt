//! code_generator.rs, append_enum: the text of an enum.
#![tactic(auto)]

ghost use Rattle.std.specs.Prelude.{◌≡◌};
ghost use Rattle.writer.specs.Draft.{Filled};
ghost use Rattle.writer.specs.Writing.{◌▻◌};
ghost use Rattle.descriptor.specs.Decode.{decode_enum};
ghost use Rattle.code_generator.specs.Writing.{◌⊳◌};
ghost use Rattle.code_generator.specs.Enums.{build_enum_value_mappings};
ghost use Rattle.enum_text.specs.EnumText.{first_values, written_text, enum_tree, enum_text, enum_texts, enums_in};

pub mod overlap;

use enum_declaration::put_enum_declaration;
use enum_impl::put_enum_impl;
use enum_values::{Enumeration, build_enum_value_mappings};
use extern_paths::resolve::takes;
use joined::{Name, name_of};
use options::Options;
use parts::Parts;
use writer::Text;

// Options, depth and scope each by itself: the callers have them apart, so a struct of them would be made at each call.

/// An enum that no extern path takes.
#[tactic(auto, unfolding(crate::specs::EnumText::written_text), using(crate::proofs::PartLaws::kept_in))]
fn put_written(
    text: &mut Text<'_>,
    part: &[u8],
    options: &Options<'_>,
    depth: usize,
    full: &[u8],
    name: &[u8],
)
    ensures { text.new ≡ text.old ⊳ written_text options.now depth full.now name.now (build_enum_value_mappings (first_values (decode_enum part.now))) }
{
    let kept = build_enum_value_mappings(part);
    let enumeration = Enumeration::new(full, name, part, &kept.marks);
    put_enum_declaration(text, options, depth, &enumeration);
    put_enum_impl(text, options, depth, &enumeration);
}

fn put_enum(text: &mut Text<'_>, part: &[u8], options: &Options<'_>, depth: usize, scope: &[u8])
    ensures { text.new ≡ text.old ⊳ enum_tree options.now depth scope.now (decode_enum part.now) }
{
    let name = name_of(part);
    if let Some(full) = Name::whole(scope, name) {
        if !takes(options, full.as_bytes()) {
            put_written(text, part, options, depth, full.as_bytes(), name);
        }
    }
}

/// The enum whose bytes are `part`, in the rest of a buffer; its length.
pub fn append_enum(
    buffer: &mut [u8],
    part: &[u8],
    options: &Options<'_>,
    depth: usize,
    scope: &[u8],
) -> usize
    ensures { Filled buffer.old (enum_text options.now depth scope.now (decode_enum part.now)) buffer.new result }
{
    // A text is begun, written and measured: over a closure that is no shorter.
    let mut text = Text::new(buffer);
    put_enum(&mut text, part, options, depth, scope);
    text.length
}

// As oneof_text's `put_oneof` and message_text's two: what is lent needs the writer's other arguments, so a method of `Text`
// over a closure would be as long.
/// The same, lent the rest of the text's buffer.
fn lend_enum(text: &mut Text<'_>, part: &[u8], options: &Options<'_>, depth: usize, scope: &[u8])
    ensures { text.new ≡ text.old ▻ enum_text options.now depth scope.now (decode_enum part.now) }
{
    let at = text.place();
    let n = append_enum(&mut text.buffer[at..], part, options, depth, scope);
    text.skip(n);
}

/// The enums of a message's part (field number 4) or a file's (5).
pub fn append_enums(
    text: &mut Text<'_>,
    part: &[u8],
    options: &Options<'_>,
    depth: usize,
    scope: &[u8],
    number: u64,
)
    ensures { text.new ≡ text.old ▻ enum_texts options.now depth scope.now (enums_in number part.now) }
{
    for enumeration in Parts::new(part, number) {
        lend_enum(text, enumeration, options, depth, scope);
    }
}
