//! What a message and a file say of themselves, without the declarations in them; and the name of any declaration.
ghost use Rattle.std.specs.Prelude.{◌≡◌};
ghost use Rattle.descriptor.specs.Descriptor.{message_header, file_header};
ghost use Rattle.descriptor.specs.Decode.{decode_message, decode_file, decode_enum, decode_oneof};
ghost use Rattle.descriptor.specs.Seen.{text_seen};
ghost use Rattle.descriptor.specs.Steps.{message_step, file_step, name_step};

use crate::field_number::{FILE_PACKAGE, NAME};
use crate::reading::{TakeRecord, described};
use crate::values::{bytes_in, flag_after};
use std::marker::Model;
use wire::records::Record;

// DescriptorProto in descriptor.proto
const OPTIONS: u64 = 7;

// MessageOptions
const MAP_ENTRY: u64 = 7;

// FileDescriptorProto
const SYNTAX: u64 = 12;

/// A message's name, `None` where it is missing, and whether it is a map entry.
#[derive(Default, Drop)]
pub struct MessageHeader<'a> {
    pub name: Option<&'a [u8]>,
    pub map_entry: bool,
}

impl<'a> Model for MessageHeader<'a> {
    ghost use Rattle.descriptor.specs.Descriptor.{MessageHeader};
    ghost use Rattle.descriptor.specs.Seen.{text_seen};

    ghost Value = { MessageHeader };

    ghost view = { λ m. record { name = text_seen m.name; map_entry = m.map_entry } };
}

impl<'a> TakeRecord<'a> for MessageHeader<'a> {
    ghost step = { message_step };

    #[inline(always)]
    fn take(&mut self, next: Record<'a>) {
        let value = next.value;
        match next.number {
            NAME => self.name = Some(bytes_in(value)),
            OPTIONS => self.map_entry = flag_after(bytes_in(value), MAP_ENTRY, self.map_entry),
            _ => {}
        }
    }
}

impl<'a> MessageHeader<'a> {
    /// Of the message that the bytes describe.
    #[tactic(auto, using(crate::proofs::StepLaws::message_is))]
    #[inline(always)]
    pub fn new(part: &'a [u8]) -> Self
        ensures { result ≡ message_header (decode_message part.now) }
    {
        described::<MessageHeader<'a>>(part)
    }
}

/// A file's package and syntax, `None` where one is missing.
#[derive(Default, Drop)]
pub struct FileHeader<'a> {
    pub package: Option<&'a [u8]>,
    pub syntax: Option<&'a [u8]>,
}

impl<'a> Model for FileHeader<'a> {
    ghost use Rattle.descriptor.specs.Descriptor.{FileHeader};
    ghost use Rattle.descriptor.specs.Seen.{text_seen};

    ghost Value = { FileHeader };

    ghost view = { λ f. record { package_name = text_seen f.package; syntax = text_seen f.syntax } };
}

impl<'a> TakeRecord<'a> for FileHeader<'a> {
    ghost step = { file_step };

    #[inline(always)]
    fn take(&mut self, next: Record<'a>) {
        match next.number {
            FILE_PACKAGE => self.package = Some(bytes_in(next.value)),
            SYNTAX => self.syntax = Some(bytes_in(next.value)),
            _ => {}
        }
    }
}

impl<'a> FileHeader<'a> {
    /// Of the file that the bytes describe.
    #[tactic(auto, using(crate::proofs::StepLaws::file_is))]
    pub fn new(part: &'a [u8]) -> Self
        ensures { result ≡ file_header (decode_file part.now) }
    {
        described::<FileHeader<'a>>(part)
    }
}

/// The name of a oneof or an enum, `None` where it is missing.
#[derive(Default, Drop)]
struct Name<'a> {
    name: Option<&'a [u8]>,
}

impl<'a> Model for Name<'a> {
    ghost use Rattle.std.proofs.Math.Option.{Option};
    ghost use Rattle.descriptor.specs.Descriptor.{Bytes};
    ghost use Rattle.descriptor.specs.Seen.{text_seen};

    ghost Value = { Option Bytes };

    ghost view = { λ n. text_seen n.name };
}

impl<'a> TakeRecord<'a> for Name<'a> {
    ghost step = { name_step };

    #[inline(always)]
    fn take(&mut self, next: Record<'a>) {
        if next.number == NAME {
            self.name = Some(bytes_in(next.value));
        }
    }
}

/// The name of a oneof or an enum, `None` where it is missing.
#[tactic(auto, unfolding(crate::specs::Decode::decode_oneof, crate::specs::Decode::decode_enum), using(crate::proofs::StepLaws::name_is))]
pub fn name_of<'a>(part: &'a [u8]) -> Option<&'a [u8]>
    ensures oneof { text_seen result ≡ decode_oneof part.now }
    ensures enumeration { text_seen result ≡ (decode_enum part.now).name }
{
    let name: Name<'_> = described(part);
    name.name
}
