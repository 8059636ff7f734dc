//! What is written for an enum's values: their variants, and their arms of `as_str_name` and `from_str_name`.
#![tactic(auto)]

ghost use Rattle.std.specs.Prelude.{◌≡◌};
ghost use Rattle.code_generator.specs.Writing.{◌⊳◌};
ghost use Rattle.code_generator.specs.Enums.{variant_lines, as_str_arm, from_str_arm};
ghost use Rattle.enum_arms.specs.ValueText.{variant_text, value_text, value_texts};

use attributes::{append_deprecated, append_field_attributes, put_line, put_line_if};
use descriptor::EnumValueDescriptor;
use enum_values::{Enumeration, put_variant_name, value_name, value_number};
use options::Options;
use writer::Text;

/// Lines from this depth on have so many bytes that nothing is written behind the first of them.
pub const DEEPEST: usize = 1 << 62;

/// What is written for a value of an enum.
#[derive(Clone, Copy)]
pub enum Arm {
    /// Its variant.
    Variant,
    /// Its arm of `as_str_name`.
    AsStr,
    /// Its arm of `from_str_name`.
    FromStr,
}

// Options, depth and enum are passed each by itself, here and in enum_impl and enum_declaration: the depth is another at each line,
// and a struct of options and enum would be opened in about half of the calls, which take the options with one name of the enum.

#[tactic(auto, unfolding(code_generator::specs::Enums::variant_lines))]
fn put_variant_lines(
    text: &mut Text<'_>,
    options: &Options<'_>,
    depth: usize,
    enumeration: &[u8],
    value: &EnumValueDescriptor<'_>,
)
    ensures { text.new ≡ text.old ⊳ variant_lines options.now depth enumeration.now value.now }
{
    append_deprecated(text, depth, value.deprecated);
    text.put_indent(depth);
    put_variant_name(text, options, enumeration, value_name(value));
    text.put(b" = ");
    text.put_signed(value_number(value));
    text.put(b",\n");
}

#[tactic(auto, unfolding(crate::specs::ValueText::variant_text))]
fn put_variant(
    text: &mut Text<'_>,
    options: &Options<'_>,
    depth: usize,
    enumeration: &Enumeration<'_>,
    value: &EnumValueDescriptor<'_>,
)
    ensures { text.new ≡ text.old ⊳ variant_text options.now depth enumeration.now.full enumeration.now.name value.now }
{
    append_field_attributes(text, options, enumeration.full(), value_name(value), depth);
    put_variant_lines(text, options, depth, enumeration.name(), value);
}

// This arm and the one below are two functions, as in the Rust: the name and the variant stand in them the other way round, and the
// mark of a deprecated one is a line here and within the line there.
#[tactic(auto, unfolding(code_generator::specs::Enums::as_str_arm))]
fn put_as_str_arm(
    text: &mut Text<'_>,
    options: &Options<'_>,
    depth: usize,
    enumeration: &[u8],
    value: &EnumValueDescriptor<'_>,
)
    ensures { text.new ≡ text.old ⊳ as_str_arm options.now depth enumeration.now value.now }
{
    let name = value_name(value);
    put_line_if(text, depth, value.deprecated, b"#[allow(deprecated)]\n");
    put_line(text, depth, b"Self::");
    put_variant_name(text, options, enumeration, name);
    text.put(b" => \"");
    text.put(name);
    text.put(b"\",\n");
}

#[tactic(auto, unfolding(code_generator::specs::Enums::from_str_arm))]
fn put_from_str_arm(
    text: &mut Text<'_>,
    options: &Options<'_>,
    depth: usize,
    enumeration: &[u8],
    value: &EnumValueDescriptor<'_>,
)
    ensures { text.new ≡ text.old ⊳ from_str_arm options.now depth enumeration.now value.now }
{
    let name = value_name(value);
    put_line(text, depth, b"\"");
    text.put(name);
    text.put(b"\" => Some(");
    text.put_if(value.deprecated, b"#[allow(deprecated)] ");
    text.put(b"Self::");
    put_variant_name(text, options, enumeration, name);
    text.put(b"),\n");
}

impl Arm {
    #[tactic(auto, unfolding(crate::specs::ValueText::value_text))]
    fn put(
        self,
        text: &mut Text<'_>,
        options: &Options<'_>,
        depth: usize,
        enumeration: &Enumeration<'_>,
        value: &EnumValueDescriptor<'_>,
    )
        ensures { text.new ≡ text.old ⊳ value_text options.now self depth enumeration.now.full enumeration.now.name value.now }
    {
        match self {
            Arm::Variant => put_variant(text, options, depth, enumeration, value),
            Arm::AsStr => put_as_str_arm(text, options, depth, enumeration.name(), value),
            Arm::FromStr => put_from_str_arm(text, options, depth, enumeration.name(), value),
        }
    }
}

/// What is written for each value of an enum.
#[tactic(auto, unfolding(crate::specs::ValueText::value_texts))]
pub fn put_values(
    text: &mut Text<'_>,
    options: &Options<'_>,
    arm: Arm,
    depth: usize,
    enumeration: &Enumeration<'_>,
)
    ensures { text.new ≡ text.old ⊳ value_texts options.now arm depth enumeration.now.full enumeration.now.name enumeration.now.values }
{
    for value in enumeration.values() {
        arm.put(text, options, depth, enumeration, &value);
    }
}
