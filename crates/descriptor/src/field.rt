//! The descriptor of a field.
ghost use Rattle.std.specs.Prelude.{◌≡◌};
ghost use Rattle.descriptor.specs.Accessors.{text, number, label, type, is_repeated, is_message, is_group, is_enum};
ghost use Rattle.descriptor.specs.Decode.{decode_field};
ghost use Rattle.descriptor.specs.Steps.{options_step, field_step};

use crate::field_number::{FIELD_DEFAULT_VALUE, NAME};
use crate::reading::{TakeRecord, described, read_into};
use crate::values::{bytes_in, flag_in, number_in};
use std::marker::Model;
use wire::records::Record;

// FieldDescriptorProto in descriptor.proto
const NUMBER: u64 = 3;

const LABEL: u64 = 4;

const TYPE: u64 = 5;

const TYPE_NAME: u64 = 6;

const OPTIONS: u64 = 8;

const ONEOF_INDEX: u64 = 9;

const PROTO3_OPTIONAL: u64 = 17;

// FieldOptions
const PACKED: u64 = 2;

const DEPRECATED: u64 = 3;

// Numbers, and no enum: a set may give any, and the definitions' rules are over any.

// Label
pub const LABEL_OPTIONAL: u32 = 1;

pub const LABEL_REPEATED: u32 = 3;

// Type
pub const TYPE_DOUBLE: u32 = 1;

pub const TYPE_GROUP: u32 = 10;

pub const TYPE_MESSAGE: u32 = 11;

pub const TYPE_ENUM: u32 = 14;

/// The options of a field.
#[derive(Clone, Copy, Default)]
pub struct FieldOptions {
    pub packed: bool,
    pub deprecated: bool,
}

impl Model for FieldOptions {
    ghost use Rattle.descriptor.specs.Descriptor.{FieldOptions};

    ghost Value = { FieldOptions };

    ghost view = { λ o. record { packed = o.packed; deprecated = o.deprecated } };

    ghost inverse = { λ o. record { packed = o.packed; deprecated = o.deprecated } };
}

impl<'a> TakeRecord<'a> for FieldOptions {
    ghost step = { options_step };

    #[inline(always)]
    fn take(&mut self, next: Record<'a>) {
        match next.number {
            PACKED => self.packed = flag_in(next.value),
            DEPRECATED => self.deprecated = flag_in(next.value),
            _ => {}
        }
    }
}

/// A field of a message. What is missing is `None`; numbers are the low 32 bits.
#[derive(Default, Drop)]
pub struct FieldDescriptor<'a> {
    pub name: Option<&'a [u8]>,
    pub number: Option<u32>,
    pub label: Option<u32>,
    /// descriptor.proto's `type`.
    pub kind: Option<u32>,
    pub type_name: Option<&'a [u8]>,
    pub default_value: Option<&'a [u8]>,
    pub options: Option<FieldOptions>,
    pub oneof_index: Option<u32>,
    pub proto3_optional: bool,
}

impl<'a> Model for FieldDescriptor<'a> {
    ghost use Rattle.descriptor.specs.Descriptor.{FieldDescriptor};
    ghost use Rattle.descriptor.specs.Seen.{option_seen, text_seen};

    ghost Value = { FieldDescriptor };

    ghost view = { λ f.
        record {
          name = text_seen f.name;
          number = option_seen f.number;
          label = option_seen f.label;
          type = option_seen f.kind;
          type_name = text_seen f.type_name;
          default_value = text_seen f.default_value;
          options = option_seen f.options;
          oneof_index = option_seen f.oneof_index;
          proto3_optional = f.proto3_optional;
        } };
}

impl<'a> TakeRecord<'a> for FieldDescriptor<'a> {
    ghost step = { field_step };

    #[inline(always)]
    fn take(&mut self, next: Record<'a>) {
        let value = next.value;
        match next.number {
            NAME => self.name = Some(bytes_in(value)),
            NUMBER => self.number = Some(number_in(value)),
            LABEL => self.label = Some(number_in(value)),
            TYPE => self.kind = Some(number_in(value)),
            TYPE_NAME => self.type_name = Some(bytes_in(value)),
            FIELD_DEFAULT_VALUE => self.default_value = Some(bytes_in(value)),
            OPTIONS => {
                let mut options = self.options.unwrap_or_default();
                read_into(&mut options, bytes_in(value));
                self.options = Some(options);
            }
            ONEOF_INDEX => self.oneof_index = Some(number_in(value)),
            PROTO3_OPTIONAL => self.proto3_optional = flag_in(value),
            _ => {}
        }
    }
}

impl<'a> FieldDescriptor<'a> {
    /// The field that the bytes describe.
    #[tactic(auto, using(crate::proofs::StepLaws::field_is))]
    #[inline(always)]
    pub fn new(part: &'a [u8]) -> Self
        ensures { result ≡ decode_field part.now }
    {
        // the generic function is `described`; each type says by its own `new` what its bytes decode to
        described(part)
    }

    /// The name; none reads as no bytes.
    pub fn name(&self) -> &'a [u8]
        ensures { result.now ≡ text self.now.name }
    {
        self.name.unwrap_or_default()
    }

    /// The name of the type; none reads as no bytes.
    pub fn type_name(&self) -> &'a [u8]
        ensures { result.now ≡ text self.now.type_name }
    {
        self.type_name.unwrap_or_default()
    }

    /// The number; none reads as 0.
    pub fn number(&self) -> u32
        ensures { result ≡ number self.now }
    {
        self.number.unwrap_or_default()
    }

    /// The number of the label; none reads as optional.
    pub fn label(&self) -> u32
        ensures { result ≡ label self.now }
    {
        self.label.unwrap_or(LABEL_OPTIONAL)
    }

    /// The number of the type; none reads as double.
    pub fn kind(&self) -> u32
        ensures { result ≡ type self.now }
    {
        self.kind.unwrap_or(TYPE_DOUBLE)
    }

    pub fn is_repeated(&self) -> bool
        ensures { result ≡ is_repeated self.now }
    {
        self.label() == LABEL_REPEATED
    }

    // One for each type that is asked for by name: with the type as a parameter each call would name it. (No code calls `is_enum` now.)
    pub fn is_message(&self) -> bool
        ensures { result ≡ is_message self.now }
    {
        self.kind() == TYPE_MESSAGE
    }

    pub fn is_group(&self) -> bool
        ensures { result ≡ is_group self.now }
    {
        self.kind() == TYPE_GROUP
    }

    pub fn is_enum(&self) -> bool
        ensures { result ≡ is_enum self.now }
    {
        self.kind() == TYPE_ENUM
    }
}
