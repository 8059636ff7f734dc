//! The known fields of descriptor.proto, and refusal 3: the first fault of a set.
#![tactic(auto)]

ghost use Rattle.std.specs.Prelude.{◌≡◌, ◌+◌, ◌<◌, ◌^◌, length, get_or, false};
ghost use Rattle.wire.specs.Value.{value_seen};
ghost use Rattle.known_fields.specs.Known.{class};
ghost use Rattle.known_fields.specs.Check.{levels_for, inner, admits, meet, check, check_set};

use wire::records::{Fault, Records, Value};

/// The numbers of known fields are below this.
const NUMBERS: usize = 18;

/// How many levels of messages of a set are read.
const LEVELS: usize = 21;

/// A message of the set is read where so many levels are left: its own, and those of its enums, their values and the
/// values' options.
const MESSAGE_LEVELS: usize = 4;

/// A message of descriptor.proto that is read.
#[derive(Clone, Copy)]
enum Message {
    FileDescriptorSet,
    FileDescriptorProto,
    DescriptorProto,
    FieldDescriptorProto,
    OneofDescriptorProto,
    EnumDescriptorProto,
    EnumValueDescriptorProto,
    MessageOptions,
    FieldOptions,
    EnumValueOptions,
}

/// What a field of a message holds.
#[derive(Clone, Copy)]
enum Class {
    /// Anything: the field isn't read.
    Unknown,
    /// A varint, once.
    Number,
    /// A string of bytes, once.
    Bytes,
    /// An embedded message, once.
    Once(Message),
    /// An embedded message in each record.
    Repeated(Message),
}

impl Message {
    /// The class of the field with a number.
    #[tactic(auto, unfolding(crate::specs::Known::class, crate::specs::Known::class_in, crate::specs::Known::known))]
    fn class(self, number: u64) -> Class
        ensures { result ≡ class self number }
    {
        // document 01's table of known fields, by its numbers
        match (self, number) {
            (Message::FileDescriptorSet, 1) => Class::Repeated(Message::FileDescriptorProto),
            (Message::FileDescriptorProto, 2 | 12) => Class::Bytes,
            (Message::FileDescriptorProto, 4) => Class::Repeated(Message::DescriptorProto),
            (Message::FileDescriptorProto, 5) => Class::Repeated(Message::EnumDescriptorProto),
            (Message::DescriptorProto, 1) => Class::Bytes,
            (Message::DescriptorProto, 2) => Class::Repeated(Message::FieldDescriptorProto),
            (Message::DescriptorProto, 3) => Class::Repeated(Message::DescriptorProto),
            (Message::DescriptorProto, 4) => Class::Repeated(Message::EnumDescriptorProto),
            (Message::DescriptorProto, 7) => Class::Once(Message::MessageOptions),
            (Message::DescriptorProto, 8) => Class::Repeated(Message::OneofDescriptorProto),
            (Message::MessageOptions, 7) => Class::Number,
            (Message::FieldDescriptorProto, 1 | 6 | 7) => Class::Bytes,
            (Message::FieldDescriptorProto, 3 | 4 | 5 | 9 | 17) => Class::Number,
            (Message::FieldDescriptorProto, 8) => Class::Once(Message::FieldOptions),
            (Message::FieldOptions, 2 | 3) => Class::Number,
            (Message::OneofDescriptorProto, 1) => Class::Bytes,
            (Message::EnumDescriptorProto, 1) => Class::Bytes,
            (Message::EnumDescriptorProto, 2) => Class::Repeated(Message::EnumValueDescriptorProto),
            (Message::EnumValueDescriptorProto, 1) => Class::Bytes,
            (Message::EnumValueDescriptorProto, 2) => Class::Number,
            (Message::EnumValueDescriptorProto, 3) => Class::Once(Message::EnumValueOptions),
            (Message::EnumValueOptions, 1) => Class::Number,
            _ => Class::Unknown,
        }
    }

    /// How many levels have to be left in the message around it, for it to be read.
    #[tactic(auto, unfolding(crate::specs::Check::levels_for))]
    fn levels(self) -> usize
        ensures { result ≡ levels_for self }
    {
        match self {
            Message::DescriptorProto => MESSAGE_LEVELS,
            _ => 1,
        }
    }
}

impl Class {
    /// May a field of this class have the value, where one with its number was met before or not?
    #[tactic(auto, unfolding(crate::specs::Check::admits))]
    fn admits(self, met: bool, value: Value<'_>) -> bool
        ensures { result ≡ admits self met (value_seen value.entry) }
    {
        match (self, value) {
            (Class::Unknown, _) | (Class::Repeated(_), Value::Len(_)) => true,
            (Class::Number, Value::Varint(_)) | (Class::Bytes | Class::Once(_), Value::Len(_)) => {
                !met
            }
            _ => false,
        }
    }

    /// The embedded message that the field holds, if it is read with so many levels left.
    #[tactic(auto, unfolding(crate::specs::Check::inner, crate::specs::Check::enter))]
    fn inner(self, left: usize) -> Option<Message>
        ensures { result ≡ inner left self }
    {
        match self {
            Class::Once(message) | Class::Repeated(message) if message.levels() <= left => {
                Some(message)
            }
            _ => None,
        }
    }
}

/// The field numbers that were met, of those below `NUMBERS`.
#[derive(Clone, Copy)]
struct Met {
    marks: [bool; NUMBERS],
}

impl Met {
    /// Marks a field number; was it met before?
    #[tactic(auto, unfolding(crate::specs::Check::meet))]
    fn insert(&mut self, number: u64) -> bool
        ensures before { result ≡ get_or self.old.marks number false }
        ensures met { self.new ≡ meet number self.old }
    {
        // a cast: a `usize` has 64 bits, so nothing is lost, and it has no `From` of a `u64`
        let at = number as usize;
        if at >= self.marks.len() {
            return false;
        }
        std::mem::replace(&mut self.marks[at], true)
    }
}

/// The first fault of a message whose bytes stand at `at` of the set; so many levels are read, its own among them.
#[tactic(auto, unfolding(crate::specs::Check::check, crate::specs::Check::check_records, crate::specs::Check::check_inside))]
fn check_message(part: &[u8], at: usize, message: Message, levels: usize) -> Result<(), Fault>
    requires { at + length part.now < 2 ^ 64 }
    ensures { result ≡ check levels message at part.now }
{
    if levels == 0 {
        return Ok(());
    }
    let left = levels - 1;
    let mut met = Met {
        marks: [false; NUMBERS],
    };
    for record in Records::new(part, at) {
        let record = record?;
        let class = message.class(record.number);
        let before = met.insert(record.number);
        if !class.admits(before, record.value) {
            return Err(Fault { key: record.key });
        }
        if let Some(inner) = class.inner(left)
            && let Value::Len(bytes) = record.value
        {
            check_message(bytes, record.start, inner, left)?;
        }
    }
    Ok(())
}

/// The first fault of a set: where the innermost key at fault stands.
#[tactic(auto, unfolding(crate::specs::Check::check_set))]
pub fn check_set(set: &[u8]) -> Result<(), Fault>
    ensures { result ≡ check_set set.now }
{
    check_message(set, 0, Message::FileDescriptorSet, LEVELS)
}
