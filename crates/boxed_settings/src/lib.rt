//! Which fields of a set have a boxed setting at `.M.f`, by bytes of a table: 1 for each that has, 0 for each other.
#![tactic(auto)]

ghost use Rattle.std.specs.Prelude.{◌≡◌};
ghost use Rattle.writer.specs.Draft.{Filled};
ghost use Rattle.writer.specs.Writing.{◌▻◌};
ghost use Rattle.descriptor.specs.Decode.{entries, parts};
ghost use Rattle.boxed_settings.specs.Flags.{flag, field_flag, field_flags, messages_flags, file_flags, set_flags};

use descriptor::field_number::{FILE_MESSAGE_TYPE, MESSAGE_FIELD, MESSAGE_NESTED_TYPE, SET_FILE};
use joined::{Name, name_of};
use options::{Kind, Options};
use parts::Parts;
use writer::Text;

/// A field of the message with this full name.
fn put_field(text: &mut Text<'_>, options: &Options<'_>, full: &[u8], field: &[u8])
    ensures { text.new ≡ text.old ▻ field_flag options.now full.now 0 field.now }
{
    let path = Name::new(full, name_of(field));
    let boxed = path::get_first(options, Kind::Boxed, path.as_bytes()).is_some();
    text.put_byte(u8::from(boxed));
}

/// The fields of the message with this full name.
#[tactic(auto, unfolding(crate::specs::Flags::field_flags), using(crate::proofs::FlagLaws::walks))]
fn put_fields(text: &mut Text<'_>, options: &Options<'_>, full: &[u8], message: &[u8])
    ensures { text.new ≡ text.old ▻ field_flags options.now full.now message.now }
{
    for field in Parts::new(message, MESSAGE_FIELD) {
        put_field(text, options, full, field);
    }
}

/// The messages with this field number in a scope, and those nested in them, so many levels.
#[tactic(auto, using(crate::proofs::FlagLaws::walks))]
fn put_messages(
    text: &mut Text<'_>,
    options: &Options<'_>,
    scope: &[u8],
    part: &[u8],
    number: u64,
    left: usize,
)
    ensures { text.new ≡ text.old ▻ messages_flags left options.now scope.now (parts number (entries part.now)) }
{
    if left == 0 {
        return;
    }
    for message in Parts::new(part, number) {
        let path = Name::new(scope, name_of(message));
        let full = path.as_bytes();
        put_fields(text, options, full, message);
        put_messages(text, options, full, message, MESSAGE_NESTED_TYPE, left - 1);
    }
}

/// The messages of a file.
fn put_file(text: &mut Text<'_>, options: &Options<'_>, file: &[u8])
    ensures { text.new ≡ text.old ▻ file_flags options.now 0 file.now }
{
    let scope = Name::package(file);
    put_messages(text, options, scope.as_bytes(), file, FILE_MESSAGE_TYPE, 16);
}

/// The files of a set.
#[tactic(auto, unfolding(crate::specs::Flags::set_flags), using(crate::proofs::FlagLaws::walks))]
fn put_files(text: &mut Text<'_>, options: &Options<'_>, set: &[u8])
    ensures { text.new ≡ text.old ▻ set_flags options.now set.now }
{
    for file in Parts::new(set, SET_FILE) {
        put_file(text, options, file);
    }
}

/// The fields of a set in declaration order, in a buffer, as far as it goes; how many there are.
// Bytes of 1 and 0, and no truth values: a `Text` writes them, and counts what has no room. A text is begun, written and measured: over
// a closure that is no shorter.
pub fn boxed_settings(bytes: &mut [u8], options: &Options<'_>, set: &[u8]) -> usize
    ensures { Filled bytes.old (set_flags options.now set.now) bytes.new result }
{
    let mut text = Text::new(bytes);
    put_files(&mut text, options, set);
    text.length
}
