//! The fields of a set: the message of each, the message that its type name names, its type and label, and its boxed setting.
#![tactic(auto)]

ghost use Rattle.std.specs.Prelude.{◌≡◌, ◌-◌, length};
ghost use Rattle.message_graph.specs.Tab.{tab};
ghost use Rattle.field_columns.specs.Columns.{byte_of};
ghost use Rattle.declarations.specs.Rows.{kind_number};
ghost use Rattle.targets.specs.Targets.{message_named, type_number, field_in};

use declarations::Kind;
use descriptor::FieldDescriptor;
use index::Row;
use message_graph::{Field, Index};
use type_names::{Names, Sort};

// The number of a message whose row has this kind; 0 for another kind.
// No Option: the definition gives 0, which is read of messages and groups alone.
fn number_of(kind: Kind) -> Index
    ensures { result ≡ byte_of (kind_number kind - 2) }
{
    match kind {
        Kind::Package | Kind::Enum => 0,
        Kind::Message(number) => field_columns::byte_of(u32::from(number)),
    }
}

// The number of the message with this full name; 0 where there is none.
fn message_named(names: &Names<'_>, name: &[u8]) -> Index
    ensures { result ≡ message_named names.now.declared.set.now names.now.declared.rows.now names.now.declared.count name.now }
{
    // No `map_or`: the proof learns nothing of a closure of two calls, and one with a clause is longer.
    match names.find(name, Sort::Message) {
        Some(row) => number_of(names.declared.row(row).kind),
        None => 0,
    }
}

// That of the type of a field, where it is a message or group.
#[tactic(auto, unfolding(crate::specs::Targets::type_number, base::specs::Choose::choose))]
fn target_of(names: &Names<'_>, field: &FieldDescriptor<'_>) -> Index
    ensures { result ≡ type_number names.now.declared.set.now names.now.declared.rows.now names.now.declared.count field.now }
{
    if field.is_message() || field.is_group() {
        return message_named(names, field.type_name());
    }
    0
}

// Field `k`.
fn field_in(names: &Names<'_>, places: &[Row], settings: &[u8], k: usize) -> Field
    ensures { result ≡ field_in names.now.declared.set.now places.now names.now.declared.rows.now names.now.declared.count settings.now k }
{
    let bytes = index::bytes_of(names.declared.set, index::row_of(places, k));
    let field = FieldDescriptor::new(bytes);
    Field {
        owner: field_columns::owner_at(places, k),
        target: target_of(names, &field),
        kind: field_columns::byte_of(field.kind()),
        label: field_columns::byte_of(field.label()),
        boxed: base::byte_at(settings, k) != 0,
    }
}

/// For each place of `fields`, the field whose place in the set is there in `places`, with a boxed setting where the byte there in
/// `settings` isn't 0.
#[tactic(auto, using(message_graph::specs::Tab::filled_none, message_graph::specs::Tab::filled_all))]
pub fn fill_fields(names: &Names<'_>, places: &[Row], settings: &[u8], fields: &mut [Field])
    ensures { fields.new ≡ tab (length fields.old) (field_in names.now.declared.set.now places.now names.now.declared.rows.now names.now.declared.count settings.now) }
{
    for (k, field) in fields.iter_mut().enumerate() {
        *field = field_in(names, places, settings, k);
    }
}
