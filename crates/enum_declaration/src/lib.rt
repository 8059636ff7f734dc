//! An enum's declaration, with its attributes.
#![tactic(auto)]

ghost use Rattle.std.specs.Prelude.{◌≡◌, ◌<◌, ◌^◌};
ghost use Rattle.code_generator.specs.Writing.{◌⊳◌};
ghost use Rattle.code_generator.specs.Enums.{enum_derive};
ghost use Rattle.enum_declaration.specs.DeclarationText.{behind_derive, declaration_text};

use attributes::{
    append_attributes, append_prost_path_attribute, end, put_line, should_skip_debug,
};
use enum_arms::{Arm, DEEPEST, put_values};
use enum_values::Enumeration;
use options::{Kind, Options};
use resolve::put_prost;
use writer::Text;

#[tactic(auto, unfolding(code_generator::specs::Enums::enum_derive))]
fn put_enum_derive(text: &mut Text<'_>, options: &Options<'_>, depth: usize, full: &[u8])
    ensures { text.new ≡ text.old ⊳ enum_derive options.now depth full.now }
{
    put_line(text, depth, b"#[derive(Clone, Copy, ");
    text.put_if(!should_skip_debug(options, full), b"Debug, ");
    text.put(b"PartialEq, Eq, Hash, PartialOrd, Ord, ");
    put_prost(text, options);
    text.put(b"::Enumeration)]\n");
}

#[tactic(auto, unfolding(crate::specs::DeclarationText::behind_derive))]
fn put_behind_derive(
    text: &mut Text<'_>,
    options: &Options<'_>,
    depth: usize,
    enumeration: &Enumeration<'_>,
)
    requires { depth < 2 ^ 62 }
    ensures { text.new ≡ text.old ⊳ behind_derive options.now depth enumeration.now.full enumeration.now.name enumeration.now.values }
{
    append_prost_path_attribute(text, options);
    put_line(text, depth, b"#[repr(i32)]\n");
    put_line(text, depth, b"pub enum ");
    ident::text::put_upper_camel(text, enumeration.name());
    text.put(b" {\n");
    put_values(text, options, Arm::Variant, depth + 1, enumeration);
    end(text, depth);
}

/// The declaration of an enum.
#[tactic(auto, unfolding(crate::specs::DeclarationText::declaration_text, crate::specs::DeclarationText::behind_derive, code_generator::specs::Attributes::append_type_attributes, code_generator::specs::Attributes::append_enum_attributes))]
pub fn put_enum_declaration(
    text: &mut Text<'_>,
    options: &Options<'_>,
    depth: usize,
    enumeration: &Enumeration<'_>,
)
    ensures { text.new ≡ text.old ⊳ declaration_text options.now depth enumeration.now.full enumeration.now.name enumeration.now.values }
{
    let full = enumeration.full();
    append_attributes(text, options, Kind::TypeAttribute, full, depth);
    append_attributes(text, options, Kind::EnumAttribute, full, depth);
    put_enum_derive(text, options, depth, full);
    if depth < DEEPEST {
        put_behind_derive(text, options, depth, enumeration);
    }
}
