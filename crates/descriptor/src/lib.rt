//! The descriptors of a set, each read from the bytes that hold it.
#![tactic(auto)]

ghost use Rattle.std.specs.Prelude.{◌≡◌, ◌-◌};
ghost use Rattle.wire.specs.Records.{part};

mod enumeration;
mod field;
pub mod field_number;
mod message;
mod reading;
mod values;

pub use enumeration::EnumValueDescriptor;
pub use field::{
    FieldDescriptor, FieldOptions, LABEL_OPTIONAL, LABEL_REPEATED, TYPE_ENUM, TYPE_GROUP,
    TYPE_MESSAGE,
};
pub use message::{FileHeader, MessageHeader, name_of};
pub use values::bytes_in;

/// The bytes of a part of a set; what lies past its end is left out.
pub fn part_of(set: &[u8], start: usize, end: usize) -> &[u8]
    ensures { result.now ≡ part set.now start (end - start) }
{
    set.get(start..end.min(set.len())).unwrap_or_default()
}
