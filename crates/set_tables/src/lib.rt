//! The two tables that the text's writers read, from the bytes of a set and from the options.
#![tactic(auto)]

ghost use Rattle.std.specs.Prelude.{◌≡◌, ◌≤◌, length};
ghost use Rattle.message_graph.specs.Tab.{tab};
ghost use Rattle.context_tables.specs.Rows.{message_table, field_table};
ghost use Rattle.set_tables.specs.Filled.{most_fields, declaration_rows, zeros, message_places, message_count, field_by, field_of, Ready, setting_bytes, columns_at, settings_to, no_flags, EntriesBelow, entries_by, message_rows, field_rows_in};

use declarations::{Declaration, Declarations, NO_DECLARATION};
use descriptor::field_number::{FILE_MESSAGE_TYPE, MESSAGE_FIELD};
use index::{NO_ROW, Row};
use limits::SHORT;
use limits::limit::{MAX_FIELDS, MAX_MESSAGES};
use message_graph::{Field, NO_FIELD};
use options::{Kind, Options};
use set_rules::{ROWS, SHORT_ROWS};
use text_tables::{FieldRow, MessageRow};
use type_names::Names;

/// How many fields a short set has at most.
pub const SHORT_FIELDS: usize = 150;

// The fields, given the bytes that have the boxed settings, with a table for the declarations, and one for the checksums of their
// names.
fn fields_by(
    set: &[u8],
    places: &[Row],
    rows: &mut [Declaration],
    sums: &mut [u64],
    settings: &[u8],
    fields: &mut [Field],
)
    ensures { fields.new ≡ tab (length fields.old) (field_by set.now places.now rows.old settings.now) }
{
    let count = declarations::declare_set(set, rows).rows;
    let names = Names::new(Declarations { set, rows, count }, sums);
    targets::fill_fields(&names, places, settings, fields);
}

// Its bytes, which are 0 so far, become those that have the boxed settings: without a row of that kind they stay as they are.
fn put_settings(bytes: &mut [u8], set: &[u8], options: &Options<'_>)
    requires { bytes.old ≡ zeros (most_fields set.now) }
    ensures { bytes.new ≡ setting_bytes set.now options.now }
{
    if options.has(Kind::Boxed) {
        boxed_settings::boxed_settings(bytes, options, set);
    }
}

// The fields that have their places in `places`, of a set with at most so many fields, and so many files and declarations.
// A const parameter has no invariant, so its bound is asked for, here and in `fill_within`.
fn fields_within<const SIZE: usize, const DECLARED: usize>(
    set: &[u8],
    options: &Options<'_>,
    places: &[Row],
    fields: &mut [Field],
)
    requires bounds { (SIZE ≤ 65536) × (DECLARED ≤ 65536) }
    requires most_fields { most_fields set.now ≡ SIZE }
    requires most_rows { declaration_rows set.now ≡ DECLARED }
    ensures { fields.new ≡ tab (length fields.old) (field_of set.now options.now places.now) }
{
    let mut settings = [0u8; SIZE];
    put_settings(&mut settings, set, options);
    let mut rows = [NO_DECLARATION; DECLARED];
    let mut sums = [0u64; DECLARED];
    fields_by(set, places, &mut rows, &mut sums, &settings, fields);
}

// The same of any set.
fn fill_fields(set: &[u8], options: &Options<'_>, places: &[Row], fields: &mut [Field])
    ensures { fields.new ≡ tab (length fields.old) (field_of set.now options.now places.now) }
{
    if set.len() <= SHORT {
        fields_within::<SHORT_FIELDS, SHORT_ROWS>(set, options, places, fields);
        return;
    }
    fields_within::<MAX_FIELDS, ROWS>(set, options, places, fields);
}

// A table of places and how many there are go side by side in what follows: there may be more than the table has room for.
// So do the set, the options and the two tables: a `Context` lends the tables once they are filled.

// Which messages are map entries, in a table that has none so far: only the first `count` may be.
fn fill_entries(set: &[u8], rows: &[Row], count: usize, entries: &mut [bool])
    requires entries_value { entries.old ≡ no_flags }
    requires entries_below { EntriesBelow count set.now rows.now }
    ensures { entries.new ≡ entries_by set.now rows.now }
{
    let n = count.min(entries.len());
    context_tables::fill_entries(set, rows, &mut entries[0..n]);
}

// Both tables, of a set with `count` messages, whose `n` fields have their places in `places`; of these it goes by as many as
// `graph` has room for.
fn fill_rows(
    messages: &mut [MessageRow],
    fields: &mut [FieldRow],
    set: &[u8],
    options: &Options<'_>,
    rows: &[Row],
    count: usize,
    places: &[Row],
    n: usize,
    graph: &mut [Field],
    boxed: &mut [bool],
)
    requires boxed_length { length boxed.old ≡ length graph.old }
    requires entries_below { EntriesBelow count set.now rows.now }
    ensures messages_after { messages.new ≡ message_table (length messages.old) rows.now places.now n (columns_at (length graph.old) set.now places.now) (settings_to (length graph.old) set.now options.now) }
    ensures fields_after { fields.new ≡ field_table (length fields.old) (length graph.old) set.now rows.now places.now (columns_at (length graph.old) set.now places.now) (settings_to (length graph.old) set.now options.now) (entries_by set.now rows.now) }
{
    let mut entries = [false; MAX_MESSAGES];
    fill_entries(set, rows, count, &mut entries);
    fill_fields(set, options, places, graph);
    context_tables::fill_rows(
        messages, fields, boxed, set, rows, places, n, graph, &entries,
    );
}

// Both tables of a set, given the places of its messages and what its fields are laid in. What the fields' table holds behind its
// rows stays.
fn fill_by(
    set: &[u8],
    options: &Options<'_>,
    messages: &mut [MessageRow],
    fields: &mut [FieldRow],
    rows: &[Row],
    count: usize,
    places: &mut [Row],
    graph: &mut [Field],
    boxed: &mut [bool],
)
    requires { Ready set.now rows.now count places.old graph.old boxed.old }
    ensures messages_after { messages.new ≡ message_rows (length messages.old) set.now options.now }
    ensures fields_after { fields.new ≡ field_rows_in fields.old set.now options.now }
{
    let n = index::index_members(set, rows, count, MESSAGE_FIELD, places, 0);
    let k = n.min(graph.len());
    let used = k.min(fields.len());
    fill_rows(
        messages,
        &mut fields[0..used],
        set,
        options,
        rows,
        count,
        places,
        n,
        &mut graph[0..k],
        &mut boxed[0..k],
    );
}

// The tables of a set with at most so many fields.
fn fill_within<const SIZE: usize>(
    set: &[u8],
    options: &Options<'_>,
    messages: &mut [MessageRow],
    fields: &mut [FieldRow],
    rows: &[Row],
    count: usize,
)
    requires bound { SIZE ≤ 65536 }
    requires most_fields { most_fields set.now ≡ SIZE }
    requires rows_value { rows.now ≡ message_places set.now }
    requires count_value { count ≡ message_count set.now }
    ensures messages_after { messages.new ≡ message_rows (length messages.old) set.now options.now }
    ensures fields_after { fields.new ≡ field_rows_in fields.old set.now options.now }
{
    let mut places = [NO_ROW; SIZE];
    let mut graph = [NO_FIELD; SIZE];
    let mut boxed = [false; SIZE];
    fill_by(
        set,
        options,
        messages,
        fields,
        rows,
        count,
        &mut places,
        &mut graph,
        &mut boxed,
    );
}

/// Both tables of a set. What the fields' table holds behind its rows stays.
pub fn fill_tables(
    set: &[u8],
    options: &Options<'_>,
    messages: &mut [MessageRow],
    fields: &mut [FieldRow],
)
    ensures messages_after { messages.new ≡ message_rows (length messages.old) set.now options.now }
    ensures fields_after { fields.new ≡ field_rows_in fields.old set.now options.now }
{
    let mut rows = [NO_ROW; MAX_MESSAGES];
    let count = index::index_files(set, FILE_MESSAGE_TYPE, 16, &mut rows);
    if set.len() <= SHORT {
        fill_within::<SHORT_FIELDS>(set, options, messages, fields, &rows, count);
        return;
    }
    fill_within::<MAX_FIELDS>(set, options, messages, fields, &rows, count);
}
