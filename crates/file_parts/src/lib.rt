//! A file of a set by its index: its part, and the number of its first message. And messages and files with their numbers.
#![tactic(auto)]

ghost use Rattle.std.specs.Prelude.{◌≡◌, ◌<◌, length, slice_get};
ghost use Rattle.std.specs.Option.{option_copied};
ghost use Rattle.std.specs.Iterator.{item_count};
ghost use Rattle.descriptor.specs.Decode.{entries, parts};
ghost use Rattle.file_parts.specs.FileParts.{part_at, behind, first_number};
ghost use Rattle.file_parts.specs.Numbered.{YieldsNumbered, YieldsFiles};

use descriptor::field_number::{FILE_MESSAGE_TYPE, SET_FILE};
use parts::Parts;
use std::marker::Model;
use text_tables::MessageRow;

// The bytes of the file with the index.
fn nth_file(set: &[u8], file: usize) -> Option<&[u8]>
    ensures { option_copied result ≡ slice_get (parts 1 (entries set.now)) file }
{
    Parts::new(set, SET_FILE).nth(file)
}

/// The bytes of the file with the index; none where there is no such file.
#[tactic(auto, using(crate::proofs::PlaceLaws::part_is))]
pub fn file_part(set: &[u8], file: usize) -> &[u8]
    ensures { result.now ≡ part_at (parts 1 (entries set.now)) file }
{
    nth_file(set, file).unwrap_or(&[])
}

/// The number behind `count` messages and those nested in them; `first` is the number of the first.
#[tactic(auto, using(crate::proofs::PlaceLaws::behind_more), unfolding(crate::specs::FileParts::behind))]
pub fn behind(messages: &[MessageRow], count: usize, first: usize) -> usize
    ensures { (result ≡ behind messages.now count first) × (first < 65536 → result < 65536) }
{
    let mut number = first;
    for _ in 0..count {
        number = usize::from(text_tables::message_row(messages, number).after);
    }
    number
}

// The number behind the messages of a file, the first with the number `first`.
fn behind_file(messages: &[MessageRow], part: &[u8], first: usize) -> usize
    ensures { (result ≡ behind messages.now (length (parts 4 (entries part.now))) first) × (first < 65536 → result < 65536) }
{
    behind(messages, parts::count_parts(part, FILE_MESSAGE_TYPE), first)
}

/// The number of the first message of the file with the index.
// Not by `Files`: past the last file this is the number behind all messages, and `Files` has no item for it.
#[tactic(auto, unfolding(crate::specs::FileParts::first_number))]
pub fn first_number(messages: &[MessageRow], set: &[u8], file: usize) -> usize
    ensures { result ≡ first_number messages.now 0 (parts 1 (entries set.now)) file }
{
    let mut first = 0;
    for part in Parts::new(set, SET_FILE).take(file) {
        first = behind_file(messages, part, first);
    }
    first
}

/// The messages of a scope that are left, each with its number in declaration order, in which those nested in a message come
/// behind it.
#[derive(Drop)]
pub struct Numbered<'t, 'a> {
    table: &'t [MessageRow],
    number: usize,
    parts: Parts<'a>,
}

impl<'t, 'a> Model for Numbered<'t, 'a> {
    ghost use Rattle.file_parts.specs.Numbered.{NumberedSeen};

    ghost Value = { NumberedSeen };

    ghost view = { λ s. record { messages = s.table.now; number = s.number; parts = s.parts } };
}

impl<'t, 'a> Numbered<'t, 'a> {
    /// Those with these bytes, the first with the number `first`.
    pub fn new(table: &'t [MessageRow], first: usize, parts: Parts<'a>) -> Self
        ensures { result ≡ record { messages = table.now; number = first; parts = parts.entry } }
    {
        Numbered {
            table,
            number: first,
            parts,
        }
    }
}

impl<'t, 'a> Iterator for Numbered<'t, 'a> {
    type Item = (usize, &'a [u8]);

    ghost next_gives = { YieldsNumbered };

    ghost remaining = { item_count (λ s. s.parts) };

    fn next(&mut self) -> Option<(usize, &'a [u8])> {
        let part = self.parts.next()?;
        let number = self.number;
        self.number = usize::from(text_tables::message_row(self.table, number).after);
        Some((number, part))
    }
}

/// The files of a set that are left, each with the number of its first message.
// Not one type with `Numbered`: it would hold a closure for the next number, and each clause would speak of that.
#[derive(Drop)]
pub struct Files<'t, 'a> {
    messages: &'t [MessageRow],
    first: usize,
    parts: Parts<'a>,
}

impl<'t, 'a> Model for Files<'t, 'a> {
    ghost use Rattle.std.specs.Prelude.{◌<◌};
    ghost use Rattle.file_parts.specs.Numbered.{NumberedSeen};

    ghost Value = { NumberedSeen };

    ghost view = { λ s. record { messages = s.messages.now; number = s.first; parts = s.parts } };

    ghost invariant = { λ s. s.first < 65536 };
}

impl<'t, 'a> Files<'t, 'a> {
    /// All of a set.
    pub fn new(messages: &'t [MessageRow], set: &'a [u8]) -> Self
        ensures { result ≡ record { messages = messages.now; number = 0; parts = parts 1 (entries set.now) } }
    {
        Files {
            messages,
            first: 0,
            parts: Parts::new(set, SET_FILE),
        }
    }
}

impl<'t, 'a> Iterator for Files<'t, 'a> {
    type Item = (usize, &'a [u8]);

    ghost next_gives = { YieldsFiles };

    ghost remaining = { item_count (λ s. s.parts) };

    fn next(&mut self) -> Option<(usize, &'a [u8])> {
        let part = self.parts.next()?;
        let first = self.first;
        self.first = behind_file(self.messages, part, first);
        Some((first, part))
    }
}
