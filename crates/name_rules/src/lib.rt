//! Refusal 6, as far as a name, a field or a value is judged by itself.
#![tactic(auto)]

ghost use Rattle.std.specs.Prelude.{◌≡◌};
ghost use Rattle.descriptor.specs.Decode.{decode_field, decode_value, decode_oneof};
ghost use Rattle.name_rules.specs.Rules.{has_name, field_good, value_good};

use descriptor::{EnumValueDescriptor, FieldDescriptor};

pub mod rules;

/// A field, by its bytes, of a message that has so many oneofs.
pub fn field_good(part: &[u8], oneofs: usize) -> bool
    ensures { result ≡ field_good oneofs (decode_field part.now) }
{
    rules::field_good(&FieldDescriptor::new(part), oneofs)
}

/// A value of an enum, by its bytes.
pub fn value_good(part: &[u8]) -> bool
    ensures { result ≡ value_good (decode_value part.now) }
{
    rules::value_good(&EnumValueDescriptor::new(part))
}

/// A oneof, by its bytes.
pub fn oneof_good(part: &[u8]) -> bool
    ensures { result ≡ has_name (decode_oneof part.now) }
{
    rules::has_name(descriptor::name_of(part))
}
