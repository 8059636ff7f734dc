//! Map entries: which fields of a set name each message, by one pass over the fields, and the first file with a map entry that is not
//! named as it must be.
#![tactic(auto)]

ghost use Rattle.std.specs.Prelude.{◌≡◌, ◌+◌, eqb, length};
ghost use Rattle.base.specs.Lists.{all_of};
ghost use Rattle.descriptor.specs.Decode.{entries, parts};
ghost use Rattle.declarations.specs.Rows.{kind_number};
ghost use Rattle.map_entries.specs.Named.{is_mapping, part_use, row_uses, vote, joined, noted, noted_rows, tally, naming, parent_kind, is_entry_row, entry_row_named, row_named, first_unnamed};
ghost use Rattle.map_entries.specs.Numbers.{number_of, numbers};

use declarations::{Declarations, Kind};
use descriptor::field_number::{MESSAGE_FIELD, SET_FILE};
use descriptor::{FieldDescriptor, LABEL_REPEATED, MessageHeader, TYPE_MESSAGE};
use parts::Parts;
use type_names::Names;

/// Which fields of a set name a message.
#[derive(Clone, Copy)]
pub enum Namers {
    Nobody,
    /// Repeated message fields of the message with this number, and no others.
    Maps(u16),
    Others,
}

impl Namers {
    // Is the message named by repeated message fields of the message with this number, and by no others?
    #[tactic(auto, unfolding(crate::specs::Numbers::number_of))]
    fn only_map(self, number: u16) -> bool
        ensures { result ≡ eqb (number_of self) (number + 2) }
    {
        matches!(self, Namers::Maps(own) if own == number)
    }
}

// Is it a repeated message field?
fn maps(field: &FieldDescriptor<'_>) -> bool
    ensures { result ≡ is_mapping field.now }
{
    field.label() == LABEL_REPEATED && field.kind() == TYPE_MESSAGE
}

// What a field of the message with this number says of a message that it names.
#[tactic(auto, unfolding(crate::specs::Named::vote, crate::specs::Numbers::number_of, base::specs::Choose::choose))]
fn vote_of(number: u16, mapping: bool) -> Namers
    ensures { number_of result ≡ vote number mapping }
{
    if mapping {
        Namers::Maps(number)
    } else {
        Namers::Others
    }
}

// What two say together.
#[tactic(auto, using(crate::proofs::NumberedLaws::join_laws))]
fn join(first: Namers, second: Namers) -> Namers
    ensures { number_of result ≡ joined (number_of first) (number_of second) }
{
    match first {
        Namers::Nobody => second,
        Namers::Maps(number) => {
            if second.only_map(number) {
                first
            } else {
                Namers::Others
            }
        }
        Namers::Others => Namers::Others,
    }
}

fn note(who: &mut [Namers], i: usize, said: Namers)
    ensures { numbers who.new ≡ noted i (number_of said) (numbers who.old) }
{
    if i < who.len() {
        who[i] = join(who[i], said);
    }
}

// A field that says this names the rows with this full name.
fn note_rows(names: &Names<'_>, name: &[u8], said: Namers, who: &mut [Namers])
    ensures { numbers who.new ≡ noted_rows names.now.declared.set.now names.now.declared.rows.now name.now (number_of said) names.now.declared.count (numbers who.old) }
{
    let sum = checksums::checksum(name);
    for row in names.likely(sum) {
        if names.is_named(name, sum, row) {
            note(who, row, said);
        }
    }
}

// A field in the message with this number.
fn note_field(names: &Names<'_>, part: &[u8], number: u16, who: &mut [Namers])
    ensures { numbers who.new ≡ tally names.now.declared.set.now names.now.declared.rows.now names.now.declared.count (part_use number part.now) (numbers who.old) }
{
    let field = FieldDescriptor::new(part);
    if let Some(name) = field.type_name {
        let said = vote_of(number, maps(&field));
        note_rows(names, name, said, who);
    }
}

// The fields of a message.
fn note_fields(names: &Names<'_>, message: &[u8], number: u16, who: &mut [Namers])
    ensures { numbers who.new ≡ tally names.now.declared.set.now names.now.declared.rows.now names.now.declared.count (all_of (part_use number) (parts 2 (entries message.now))) (numbers who.old) }
{
    for part in Parts::new(message, MESSAGE_FIELD) {
        note_field(names, part, number, who);
    }
}

// The fields of the message in row `i`, where it is one.
fn note_row(names: &Names<'_>, i: usize, who: &mut [Namers])
    ensures { numbers who.new ≡ tally names.now.declared.set.now names.now.declared.rows.now names.now.declared.count (row_uses names.now.declared.set.now names.now.declared.rows.now i) (numbers who.old) }
{
    let row = names.declared.row(i);
    if let Kind::Message(number) = row.kind {
        let message = names.declared.bytes_of(row);
        note_fields(names, message, number, who);
    }
}

/// Who names each of the rows.
// A list beside the rows, and no field of them: a field may name any row, and the table is there before.
pub fn note_set(names: &Names<'_>, who: &mut [Namers])
    ensures { numbers who.new ≡ naming names.now.declared.set.now names.now.declared.rows.now names.now.declared.count (length who.old) }
{
    who.fill(Namers::Nobody);
    for row in 0..names.declared.count {
        note_row(names, row, who);
    }
}

// The kind of what row `i` stands in; a package's where there is nothing.
// By hand, and not by type_names' `above`: the definition `parent_kind` tests the number itself.
fn parent_of(declared: &Declarations<'_>, i: usize) -> Kind
    ensures { kind_number result ≡ parent_kind declared.now.rows.now i }
{
    let up = declared.row(i).up;
    if up == 0 || i < up {
        return Kind::Package;
    }
    declared.row(up - 1).kind
}

fn is_entry(declared: &Declarations<'_>, i: usize) -> bool
    ensures { result ≡ is_entry_row declared.now.set.now declared.now.rows.now i }
{
    let row = declared.row(i);
    matches!(row.kind, Kind::Message(_)) && MessageHeader::new(declared.bytes_of(row)).map_entry
}

// Do only repeated message fields of the message that it stands in name row `i`?
fn is_mapped(declared: &Declarations<'_>, who: &[Namers], i: usize) -> bool
    ensures { result ≡ entry_row_named declared.now.rows.now (numbers who.now) i }
{
    // a match: `matches!` with the question as its guard was tried, and its proof did not close
    match parent_of(declared, i) {
        Kind::Package | Kind::Enum => false,
        Kind::Message(number) => who.get(i).is_some_and(|namers| namers.only_map(number)),
    }
}

// Is row `i` no map entry, or one that is named as it must be?
#[tactic(auto, unfolding(crate::specs::Named::row_named, base::specs::Choose::choose))]
fn is_row_named(declared: &Declarations<'_>, who: &[Namers], i: usize) -> bool
    ensures { result ≡ row_named declared.now.set.now declared.now.rows.now (numbers who.now) i }
{
    !is_entry(declared, i) || is_mapped(declared, who, i)
}

/// The first file with a map entry that isn't named as it must be, given who names each row, and the count of files where there is
/// none: so the definition has it, and `set_rules` takes the least of two.
pub fn first_unnamed(declared: &Declarations<'_>, who: &[Namers]) -> usize
    ensures { result ≡ first_unnamed declared.now.set.now declared.now.rows.now declared.now.count (numbers who.now) }
{
    for row in 0..declared.count {
        if !is_row_named(declared, who, row) {
            return declared.row(row).file;
        }
    }
    parts::count_parts(declared.set, SET_FILE)
}
