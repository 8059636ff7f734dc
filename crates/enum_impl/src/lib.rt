//! An enum's impl: `as_str_name` and `from_str_name`.
#![tactic(auto)]

ghost use Rattle.std.specs.Prelude.{◌≡◌, ◌<◌, ◌^◌};
ghost use Rattle.code_generator.specs.Writing.{◌⊳◌};
ghost use Rattle.code_generator.specs.Enums.{as_str_arms, from_str_arms, as_str_name, from_str_name, enum_impl};
ghost use Rattle.enum_impl.specs.ImplText.{impl_line, methods};

use attributes::{end, put_line};
use enum_arms::{Arm, DEEPEST, put_values};
use enum_values::Enumeration;
use options::Options;
use writer::Text;

// The two functions of arms stand between `put_values` and the methods: with `put_values` called in a method, the proof of the
// method's text was tried and didn't close.
#[tactic(auto, using(enum_arms::proofs::ArmLaws::as_str_arms_are))]
fn put_as_str_arms(
    text: &mut Text<'_>,
    options: &Options<'_>,
    depth: usize,
    enumeration: &Enumeration<'_>,
)
    ensures { text.new ≡ text.old ⊳ as_str_arms options.now depth enumeration.now.name enumeration.now.values }
{
    put_values(text, options, Arm::AsStr, depth, enumeration);
}

#[tactic(auto, using(enum_arms::proofs::ArmLaws::from_str_arms_are))]
fn put_from_str_arms(
    text: &mut Text<'_>,
    options: &Options<'_>,
    depth: usize,
    enumeration: &Enumeration<'_>,
)
    ensures { text.new ≡ text.old ⊳ from_str_arms options.now depth enumeration.now.name enumeration.now.values }
{
    put_values(text, options, Arm::FromStr, depth, enumeration);
}

#[tactic(auto, unfolding(code_generator::specs::Enums::as_str_name))]
fn put_as_str_name(
    text: &mut Text<'_>,
    options: &Options<'_>,
    depth: usize,
    enumeration: &Enumeration<'_>,
)
    requires { depth < 2 ^ 63 }
    ensures { text.new ≡ text.old ⊳ as_str_name options.now depth enumeration.now.name enumeration.now.values }
{
    put_line(
        text,
        depth,
        b"/// String value of the enum field names used in the ProtoBuf definition.\n",
    );
    put_line(text, depth, b"///\n");
    put_line(
        text,
        depth,
        b"/// The values are not transformed in any way and thus are considered stable\n",
    );
    put_line(
        text,
        depth,
        b"/// (if the ProtoBuf definition does not change) and safe for programmatic use.\n",
    );
    put_line(
        text,
        depth,
        b"pub fn as_str_name(&self) -> &'static str {\n",
    );
    put_line(text, depth + 1, b"match self {\n");
    put_as_str_arms(text, options, depth + 2, enumeration);
    end(text, depth + 1);
    end(text, depth);
}

#[tactic(auto, unfolding(code_generator::specs::Enums::from_str_name))]
fn put_from_str_name(
    text: &mut Text<'_>,
    options: &Options<'_>,
    depth: usize,
    enumeration: &Enumeration<'_>,
)
    requires { depth < 2 ^ 63 }
    ensures { text.new ≡ text.old ⊳ from_str_name options.now depth enumeration.now.name enumeration.now.values }
{
    put_line(
        text,
        depth,
        b"/// Creates an enum from field names used in the ProtoBuf definition.\n",
    );
    put_line(
        text,
        depth,
        b"pub fn from_str_name(value: &str) -> ::core::option::Option<Self> {\n",
    );
    put_line(text, depth + 1, b"match value {\n");
    put_from_str_arms(text, options, depth + 2, enumeration);
    put_line(text, depth + 2, b"_ => None,\n");
    end(text, depth + 1);
    end(text, depth);
}

#[tactic(auto, unfolding(crate::specs::ImplText::impl_line))]
fn put_impl_line(text: &mut Text<'_>, depth: usize, enumeration: &[u8])
    ensures { text.new ≡ text.old ⊳ impl_line depth enumeration.now }
{
    put_line(text, depth, b"impl ");
    ident::text::put_upper_camel(text, enumeration);
    text.put(b" {\n");
}

#[tactic(auto, unfolding(crate::specs::ImplText::methods))]
fn put_methods(
    text: &mut Text<'_>,
    options: &Options<'_>,
    depth: usize,
    enumeration: &Enumeration<'_>,
)
    requires { depth < 2 ^ 62 }
    ensures { text.new ≡ text.old ⊳ methods options.now depth enumeration.now.name enumeration.now.values }
{
    put_as_str_name(text, options, depth + 1, enumeration);
    put_from_str_name(text, options, depth + 1, enumeration);
    end(text, depth);
}

/// The impl of an enum.
#[tactic(auto, unfolding(code_generator::specs::Enums::enum_impl, crate::specs::ImplText::impl_line, crate::specs::ImplText::methods))]
pub fn put_enum_impl(
    text: &mut Text<'_>,
    options: &Options<'_>,
    depth: usize,
    enumeration: &Enumeration<'_>,
)
    ensures { text.new ≡ text.old ⊳ enum_impl options.now depth enumeration.now.name enumeration.now.values }
{
    put_impl_line(text, depth, enumeration.name());
    if depth < DEEPEST {
        put_methods(text, options, depth, enumeration);
    }
}
