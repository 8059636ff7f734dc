//! The descriptor of an enum's value.
ghost use Rattle.std.specs.Prelude.{◌≡◌};
ghost use Rattle.descriptor.specs.Decode.{decode_value};
ghost use Rattle.descriptor.specs.Steps.{value_step};

use crate::field_number::NAME;
use crate::reading::{TakeRecord, described};
use crate::values::{bytes_in, flag_after, number_in};
use std::marker::Model;
use wire::records::Record;

// EnumValueDescriptorProto in descriptor.proto
const NUMBER: u64 = 2;

const OPTIONS: u64 = 3;

// EnumValueOptions
const DEPRECATED: u64 = 1;

/// A value of an enum. What is missing is `None`; the number is the low 32 bits.
#[derive(Default, Drop)]
pub struct EnumValueDescriptor<'a> {
    pub name: Option<&'a [u8]>,
    pub number: Option<u32>,
    pub deprecated: bool,
}

impl<'a> Model for EnumValueDescriptor<'a> {
    ghost use Rattle.descriptor.specs.Descriptor.{ValueDescriptor};
    ghost use Rattle.descriptor.specs.Seen.{option_seen, text_seen};

    ghost Value = { ValueDescriptor };

    ghost view = { λ v. record { name = text_seen v.name; number = option_seen v.number; deprecated = v.deprecated } };
}

impl<'a> TakeRecord<'a> for EnumValueDescriptor<'a> {
    ghost step = { value_step };

    #[inline(always)]
    fn take(&mut self, next: Record<'a>) {
        let value = next.value;
        match next.number {
            NAME => self.name = Some(bytes_in(value)),
            NUMBER => self.number = Some(number_in(value)),
            OPTIONS => self.deprecated = flag_after(bytes_in(value), DEPRECATED, self.deprecated),
            _ => {}
        }
    }
}

impl<'a> EnumValueDescriptor<'a> {
    /// The value that the bytes describe.
    #[tactic(auto, using(crate::proofs::StepLaws::value_is))]
    #[inline(always)]
    pub fn new(part: &'a [u8]) -> Self
        ensures { result ≡ decode_value part.now }
    {
        described(part)
    }
}
