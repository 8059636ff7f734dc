//! The two tables that the text's writers read: a row for each message of a set, and one for each field.
#![tactic(auto)]

ghost use Rattle.std.specs.Prelude.{◌≡◌, false, ℕ, ◌<◌, ◌^◌, length, get_or};
ghost use Rattle.message_graph.specs.Rows.{fields_of, settings_of};
ghost use Rattle.message_graph.specs.Boxes.{boxed_by_loop};
ghost use Rattle.message_graph.specs.Tab.{tab};
ghost use Rattle.context_tables.specs.Rows.{entry_at, oneof_at, message_table, field_table};
ghost use Rattle.context_tables.specs.Sources.{message_in, can_at, names_entry_at, entry_place_at, field_in};

use derives::{Derive, Derives};
use descriptor::{FieldDescriptor, MessageHeader};
use index::Row;
use message_graph::{Field, LABEL_REPEATED, MESSAGES, TYPE_MESSAGE};
use text_tables::{FieldRow, MessageRow, Place};

// Fills a table: each place with what is made for its number. Private: no public function may ask anything of its callers, and this
// asks for a closure that can be called at each number.
#[inline]
#[tactic(auto, using(message_graph::specs::Tab::filled_all))]
fn fill<T: Copy, F: Fn(usize) -> T>(table: &mut [T], made: F)
    requires { F.IsAlwaysCallable made }
    ensures { (f : ℕ → T) → ((i : ℕ) (x : T) → i < 2 ^ 64 → F.post made i x → x ≡ f i) → table.new ≡ tab (length table.old) f }
{
    for (i, place) in table.iter_mut().enumerate() {
        *place = made(i);
    }
}

// The flag that a table has at i, and false past its end.
// One chain of std's functions, as for each table: a function over all would take what stands past the end too, and say no less.
fn flag_at(flags: &[bool], i: usize) -> bool
    ensures { result ≡ get_or flags.now i false }
{
    flags.get(i).copied().unwrap_or(false)
}

// Where a row's declaration lies.
// No `From`: neither of the two types is of this crate.
fn place_of(row: Row) -> Place
    ensures { result ≡ record { start = row.start; end = row.end } }
{
    Place {
        start: row.start,
        end: row.end,
    }
}

// Is message `i` a map entry?
#[tactic(auto, unfolding(crate::specs::Rows::entry_at))]
fn entry_at(set: &[u8], rows: &[Row], i: usize) -> bool
    ensures { result ≡ entry_at set.now rows.now i }
{
    MessageHeader::new(index::bytes_of(set, index::row_of(rows, i))).map_entry
}

/// For each place of `out`, whether the message with that number is a map entry.
pub fn fill_entries(set: &[u8], rows: &[Row], out: &mut [bool])
    ensures { out.new ≡ tab (length out.old) (entry_at set.now rows.now) }
{
    fill(out, |i| entry_at(set, rows, i));
}

// What the rows of the messages are made from: the rows of their places, the first field of each, and what each can derive.
#[derive(Drop)]
struct Messages<'a> {
    rows: &'a [Row],
    first: &'a [u16],
    can: &'a Derives,
}

impl Messages<'_> {
    // Message `i`.
    #[tactic(auto, unfolding(crate::specs::Rows::message_row_of))]
    fn row(&self, i: usize) -> MessageRow
        ensures { result ≡ message_in self.now i }
    {
        MessageRow {
            copy: flag_at(&self.can.copy, i),
            eq: flag_at(&self.can.eq, i),
            first: self.first.get(i).copied().unwrap_or(0),
            after: index::row_of(self.rows, i).after,
        }
    }

    // The rows of the messages.
    fn fill(&self, rows: &mut [MessageRow])
        ensures { rows.new ≡ tab (length rows.old) (message_in self.now) }
    {
        fill(rows, |i| self.row(i));
    }
}

// Columns: each is made by a layer of its own, in arrays of the caller (no heap).

// What the rows of the fields are made from: the set, the rows of the messages' and of the fields' places, the fields, which of
// them are boxed by a loop, which messages are map entries, and what each message can derive.
#[derive(Drop)]
struct Fields<'a> {
    set: &'a [u8],
    rows: &'a [Row],
    places: &'a [Row],
    fields: &'a [Field],
    boxed: &'a [bool],
    entries: &'a [bool],
    can: &'a Derives,
}

impl Fields<'_> {
    // Can field `k` derive it? `can` has the messages' answers.
    #[tactic(auto, unfolding(crate::specs::Rows::field_can), using(crate::proofs::ReadLaws::columns))]
    fn can(&self, derive: Derive, can: &[bool], k: usize) -> bool
        ensures { result ≡ can_at self.now derive can.now k }
    {
        let field = message_graph::field_at(self.fields, k);
        let looped = flag_at(self.boxed, k);
        let answer = flag_at(can, message_graph::place_of(field.target));
        derives::can_field_derive(derive, field, looped, answer)
    }

    // Is field `k` a repeated field of type message whose type is a map entry?
    #[tactic(auto, unfolding(crate::specs::Rows::names_entry, base::specs::Choose::choose), using(crate::proofs::ReadLaws::columns))]
    fn names_entry(&self, k: usize) -> bool
        ensures { result ≡ names_entry_at self.now k }
    {
        let field = message_graph::field_at(self.fields, k);
        field.kind == TYPE_MESSAGE
            && field.label == LABEL_REPEATED
            && flag_at(self.entries, message_graph::place_of(field.target))
    }

    // Where the map entry lies that field `k` names.
    #[tactic(auto, unfolding(crate::specs::Rows::entry_place, base::specs::Choose::choose), using(crate::proofs::ReadLaws::columns))]
    fn entry(&self, k: usize) -> Option<Place>
        ensures { result ≡ entry_place_at self.now k }
    {
        if !self.names_entry(k) {
            return None;
        }
        let field = message_graph::field_at(self.fields, k);
        let entry = index::row_of(self.rows, message_graph::place_of(field.target));
        Some(place_of(entry))
    }

    // The index of the oneof of field `k`; proto3_optional takes it out of its oneof. An index over 65,535 is left out.
    #[tactic(auto, unfolding(crate::specs::Rows::oneof_at, crate::specs::Rows::oneof_index, base::specs::Choose::choose))]
    fn oneof(&self, k: usize) -> Option<u16>
        ensures { result ≡ oneof_at self.now.set.now self.now.places.now k }
    {
        let row = index::row_of(self.places, k);
        let field = FieldDescriptor::new(index::bytes_of(self.set, row));
        if field.proto3_optional {
            return None;
        }
        u16::try_from(field.oneof_index?).ok()
    }

    // Field `k`.
    #[tactic(auto, unfolding(crate::specs::Rows::field_row_of))]
    fn row(&self, k: usize) -> FieldRow
        ensures { result ≡ field_in self.now k }
    {
        let row = index::row_of(self.places, k);
        FieldRow {
            looped: flag_at(self.boxed, k),
            copy: self.can(Derive::Copy, &self.can.copy, k),
            eq: self.can(Derive::Eq, &self.can.eq, k),
            place: place_of(row),
            entry: self.entry(k),
            oneof: self.oneof(k),
        }
    }

    // The rows of the fields.
    fn fill(&self, rows: &mut [FieldRow])
        ensures { rows.new ≡ tab (length rows.old) (field_in self.now) }
    {
        fill(rows, |k| self.row(k));
    }
}

// `n` stands beside the places: fields that their table has no room for are counted too.

/// Both tables, from the rows of the messages' places and of the fields' places, of which there are `n`, the fields, and which
/// messages are map entries. `boxed` is left with the fields that are boxed by a loop.
#[tactic(auto, unfolding(crate::specs::Rows::message_table, crate::specs::Rows::field_table))]
pub fn fill_rows(
    message_rows: &mut [MessageRow],
    field_rows: &mut [FieldRow],
    boxed: &mut [bool],
    set: &[u8],
    rows: &[Row],
    places: &[Row],
    n: usize,
    fields: &[Field],
    entries: &[bool],
)
    ensures messages_after { message_rows.new ≡ message_table (length message_rows.old) rows.now places.now n (fields_of fields.now) (settings_of fields.now) }
    ensures fields_after { field_rows.new ≡ field_table (length field_rows.old) (length boxed.old) set.now rows.now places.now (fields_of fields.now) (settings_of fields.now) entries.now }
    ensures boxed_after { boxed.new ≡ tab (length boxed.old) (boxed_by_loop (fields_of fields.now)) }
{
    let mut first = [0u16; MESSAGES];
    field_columns::fill_starts(places, n, &mut first);
    let can = derives::can_derive(fields, boxed);
    let of_messages = Messages {
        rows,
        first: &first,
        can: &can,
    };
    of_messages.fill(message_rows);
    let of_fields = Fields {
        set,
        rows,
        places,
        fields,
        boxed,
        entries,
        can: &can,
    };
    of_fields.fill(field_rows);
}
