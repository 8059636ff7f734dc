//! What the text's writers ask of a message, its fields and its oneofs.
#![tactic(auto)]

ghost use Rattle.std.specs.Prelude.{◌≡◌, ◌+◌, ◌-◌, not, length, take, drop, Some, None};
ghost use Rattle.std.specs.Iterator.{item_count, YieldsFirst};
ghost use Rattle.base.specs.Choose.{choose};
ghost use Rattle.base.specs.Lists.{is_empty, all};
ghost use Rattle.writer.specs.Writing.{◌▻◌};
ghost use Rattle.options.specs.Kind.{kind_number};
ghost use Rattle.descriptor.specs.Decode.{entries, parts, decode_message};
ghost use Rattle.context.specs.Context.{has};
ghost use Rattle.joined.specs.Joined.{◌⊙◌};
ghost use Rattle.text_tables.specs.Rows.{message_row, is_in};
ghost use Rattle.code_generator.specs.Attributes.{deprecated};
ghost use Rattle.code_generator.specs.Piece.{spelt, oneof_type};
ghost use Rattle.members.specs.Members.{field_at, is_boxed, name_in, numbers_where, oneof_members, oneofs_of, in_oneofs, may_derive, can_derive, conflict};

pub mod camel;

use crate::camel::CamelSums;
use context::Context;
use derives::Derive;
use descriptor::field_number::{MESSAGE_FIELD, MESSAGE_ONEOF_DECL};
use descriptor::{FieldDescriptor, MessageHeader};
use joined::Name;
use options::{Kind, Options};
use parts::Parts;
use std::iter::Enumerate;
use std::marker::Model;
use std::ops::Range;
use text_tables::{FieldRow, MessageRow};
use writer::Text;

/// A message of the set. A clause sees the two slices as the bytes.
#[derive(Drop)]
pub struct Message<'a> {
    /// The bytes of its descriptor.
    pub part: &'a [u8],
    /// Its number in declaration order.
    pub number: usize,
    /// Its full name.
    pub full: &'a [u8],
    /// Are nested messages read?
    pub nested: bool,
}

impl<'a> Model for Message<'a> {
    ghost use Rattle.members.specs.Seen.{MessageSeen};

    ghost Value = { MessageSeen };

    ghost view = { λ m. record { part = m.part.now; number = m.number; full = m.full.now; nested = m.nested } };
}

/// A oneof of a message.
#[derive(Drop)]
pub struct Oneof<'a> {
    pub name: &'a [u8],
    /// Does its type's name meet that of a nested type?
    pub conflict: bool,
    pub index: usize,
    /// The numbers of its message's fields.
    pub fields: Range<usize>,
}

impl<'a> Model for Oneof<'a> {
    ghost use Rattle.members.specs.Seen.{OneofSeen};

    ghost Value = { OneofSeen };

    ghost view = { λ o. record { name = o.name.now; conflict = o.conflict; index = o.index; first = o.fields.start; last = o.fields.end } };
}

/// Is the message a map entry?
pub fn is_entry(part: &[u8]) -> bool
    ensures { result ≡ (decode_message part.now).map_entry }
{
    MessageHeader::new(part).map_entry
}

/// Field k of the set.
pub fn field_at<'a>(context: &Context<'a>, k: usize) -> FieldDescriptor<'a>
    ensures { result ≡ field_at context.now.set context.now.fields k }
{
    let row = text_tables::field_row(context.fields, k);
    FieldDescriptor::new(row.place.bytes_in(context.set))
}

/// Does a row of the kind match the path of a name in a scope?
#[tactic(auto, using(crate::proofs::SettingLaws::some_found))]
pub fn setting(options: &Options<'_>, kind: Kind, full: &[u8], name: &[u8]) -> bool
    ensures { result ≡ has options.now (kind_number kind) (full.now ⊙ name.now) }
{
    let path = Name::new(full, name);
    path::get_first(options, kind, path.as_bytes()).is_some()
}

/// Is the field marked as deprecated?
#[tactic(auto, unfolding(code_generator::specs::Attributes::deprecated))]
pub fn is_deprecated(field: &FieldDescriptor<'_>) -> bool
    ensures { result ≡ deprecated field.now }
{
    field.options.unwrap_or_default().deprecated
}

/// `should_box` of a field and its row: `at` is the message's full name, or the oneof's.
#[tactic(auto, unfolding(base::specs::Choose::choose))]
pub fn is_boxed(
    options: &Options<'_>,
    row: &FieldRow,
    field: &FieldDescriptor<'_>,
    at: &[u8],
) -> bool
    ensures { result ≡ is_boxed options.now row.now field.now at.now }
{
    !field.is_repeated() && (row.looped || setting(options, Kind::Boxed, at, field.name()))
}

// The rows of the fields in a range, as far as the table goes.
fn rows_in<'a>(rows: &'a [FieldRow], range: &Range<usize>) -> &'a [FieldRow]
    ensures { result.now ≡ take (range.now.end - range.now.start) (drop range.now.start rows.now) }
{
    let end = range.end.min(rows.len());
    let start = range.start.min(end);
    &rows[start..end]
}

/// Is one of the fields in the range in the oneof with the index?
pub fn has_members(fields: &[FieldRow], index: usize, range: &Range<usize>) -> bool
    ensures { result ≡ not (is_empty (numbers_where (is_in index) fields.now (range.now.end - range.now.start) range.now.start)) }
{
    rows_in(fields, range).iter().any(|row| row.is_in(index))
}

/// Is one of the fields in the range in a oneof?
pub fn in_oneofs(fields: &[FieldRow], range: &Range<usize>) -> bool
    ensures { result ≡ in_oneofs fields.now (range.now.end - range.now.start) range.now.start }
{
    rows_in(fields, range).iter().any(|row| !row.is_plain())
}

// May the field derive the trait?
#[tactic(auto, unfolding(crate::specs::Members::may_derive))]
fn can_derive(row: &FieldRow, derive: Derive) -> bool
    ensures { result ≡ may_derive derive row.now }
{
    match derive {
        Derive::Copy => row.copy,
        Derive::Eq => row.eq,
    }
}

/// `can_oneof_derive_copy` and `can_oneof_derive_eq`: may all fields of the oneof derive the trait?
pub fn all_derive(fields: &[FieldRow], derive: Derive, oneof: &Oneof<'_>) -> bool
    ensures { result ≡ all (can_derive derive fields.now) (oneof_members fields.now oneof.now) }
{
    rows_in(fields, &oneof.fields)
        .iter()
        .all(|row| !row.is_in(oneof.index) || can_derive(row, derive))
}

impl<'a> Message<'a> {
    /// Its name.
    pub fn name(&self) -> &'a [u8]
        ensures { result.now ≡ name_in self.now.part }
    {
        joined::name_of(self.part)
    }

    /// The numbers of its fields.
    pub fn fields(&self, messages: &[MessageRow]) -> Range<usize>
        ensures start { result.start ≡ (message_row messages.now self.now.number).first }
        ensures end { result.end ≡ result.start + length (parts 2 (entries self.now.part)) }
    {
        let first = usize::from(text_tables::message_row(messages, self.number).first);
        first..first + Parts::new(self.part, MESSAGE_FIELD).count()
    }

    /// Does it declare a oneof?
    pub fn declares_oneofs(&self) -> bool
        ensures { result ≡ not (is_empty (parts 8 (entries self.now.part))) }
    {
        Parts::new(self.part, MESSAGE_ONEOF_DECL).next().is_some()
    }

    /// Its oneofs that have fields.
    #[tactic(auto, unfolding(crate::specs::Members::oneofs_of))]
    pub fn oneofs<'t>(&self, context: &Context<'t>) -> Oneofs<'t, 'a>
        ensures { result ≡ oneofs_of context.now.messages context.now.fields self.now }
    {
        Oneofs {
            parts: Parts::new(self.part, MESSAGE_ONEOF_DECL).enumerate(),
            table: context.fields,
            fields: self.fields(context.messages),
            sums: CamelSums::of(self.part, self.nested),
        }
    }
}

/// The oneofs of a message that are left, but those without fields.
#[derive(Drop)]
pub struct Oneofs<'t, 'a> {
    parts: Enumerate<Parts<'a>>,
    table: &'t [FieldRow],
    fields: Range<usize>,
    sums: CamelSums<'a>,
}

impl<'t, 'a> Model for Oneofs<'t, 'a> {
    ghost use Rattle.std.specs.Prelude.{List, ◌+◌, ◌<◌, ◌^◌, length};
    ghost use Rattle.std.specs.Iterator.Adapters.{enumerate_source, enumerate_count};
    ghost use Rattle.members.specs.Members.{oneofs_from};
    ghost use Rattle.members.specs.Seen.{OneofSeen};

    ghost Value = { List OneofSeen };

    ghost view = { λ s. oneofs_from s.table.now s.fields.start s.fields.end s.sums.0 s.sums.1 (enumerate_count s.parts) (enumerate_source s.parts) };

    ghost invariant = { λ s. enumerate_count s.parts + length (enumerate_source s.parts) < 2 ^ 64 };
}

impl<'t, 'a> Iterator for Oneofs<'t, 'a> {
    type Item = Oneof<'a>;

    ghost next_gives = { YieldsFirst (λ rest. rest) };

    ghost remaining = { item_count (λ rest. rest) };

    fn next(&mut self) -> Option<Oneof<'a>> {
        self.parts.find_map(|(index, part)| {
            // by its ends: `clone` gives a `Result` here
            let fields = self.fields.start..self.fields.end;
            Oneof::new(self.table, fields, &self.sums, index, part)
        })
    }
}

/// The numbers of a oneof's fields that are left.
#[derive(Drop)]
pub struct Members<'t> {
    table: &'t [FieldRow],
    index: usize,
    fields: Range<usize>,
}

impl<'t> Model for Members<'t> {
    ghost use Rattle.std.specs.Prelude.{List, ℕ, ◌-◌};
    ghost use Rattle.text_tables.specs.Rows.{is_in};
    ghost use Rattle.members.specs.Members.{numbers_where};

    ghost Value = { List ℕ };

    ghost view = { λ s. numbers_where (is_in s.index) s.table.now (s.fields.end - s.fields.start) s.fields.start };
}

impl<'t> Iterator for Members<'t> {
    type Item = usize;

    ghost next_gives = { YieldsFirst (λ rest. rest) };

    ghost remaining = { item_count (λ rest. rest) };

    fn next(&mut self) -> Option<usize> {
        self.fields.find(|k| text_tables::field_row(self.table, *k).is_in(self.index))
    }
}

impl<'a> Oneof<'a> {
    /// The oneof with the index, whose bytes `part` is, of the message that has these fields and names; none where it is left
    /// without fields.
    #[tactic(auto, unfolding(base::specs::Choose::choose))]
    pub fn new(
        table: &[FieldRow],
        fields: Range<usize>,
        sums: &CamelSums<'_>,
        index: usize,
        part: &'a [u8],
    ) -> Option<Self>
        ensures { result ≡ choose (is_empty (numbers_where (is_in index) table.now (fields.end - fields.start) fields.start)) None (Some (record { name = name_in part.now; conflict = conflict sums.now.0 sums.now.1 (name_in part.now); index = index; first = fields.start; last = fields.end })) }
    {
        if !has_members(table, index, &fields) {
            return None;
        }
        let name = joined::name_of(part);
        let conflict = sums.meets(name);
        Some(Oneof {
            name,
            conflict,
            index,
            fields,
        })
    }

    /// The numbers of its fields.
    pub fn members<'t>(&self, context: &Context<'t>) -> Members<'t>
        ensures { result ≡ oneof_members context.now.fields self.now }
    {
        Members {
            table: context.fields,
            index: self.index,
            fields: self.fields.start..self.fields.end,
        }
    }

    /// The name of its type.
    #[tactic(auto, using(crate::proofs::TypeLaws::type_named))]
    pub fn put_type(&self, text: &mut Text<'_>)
        ensures { text.new ≡ text.old ▻ spelt (oneof_type self.now.conflict self.now.name) }
    {
        ident::text::put_upper_camel(text, self.name);
        text.put_if(self.conflict, b"OneOf");
    }
}
