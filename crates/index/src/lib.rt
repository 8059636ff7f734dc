//! Where the declarations of a set lie: how many there are, and a table of them in declaration order.
#![tactic(auto)]

ghost use Rattle.std.specs.Prelude.{◌≡◌, ◌≢◌, ◌+◌, ◌<◌, ◌≤◌, length, Ok, IfOk, MatchOption};
ghost use Rattle.index.specs.Tree.{forest_in, put, Indexed, file_forests, IndexedFiles, row_at, row_bytes, Holds, all_members};

use descriptor::bytes_in;
use descriptor::field_number::{MESSAGE_NESTED_TYPE, SET_FILE};
use wire::records::{Fault, Record, Records};

/// A declaration of a set.
#[derive(Clone, Copy)]
pub struct Row {
    /// Where its bytes start in the set.
    pub start: u16,
    /// Where they end.
    pub end: u16,
    /// The index of its file.
    pub file: u16,
    /// What it stands in: 0, or one more than the row of the message around it.
    // No `Option`: `rows` is defined by this number, and a message's fields are found by comparing it with the message's.
    pub up: u16,
    /// The row behind those nested in it.
    pub after: u16,
}

/// What a table has past its end.
pub const NO_ROW: Row = Row {
    start: 0,
    end: 0,
    file: 0,
    up: 0,
    after: 0,
};

// All five fit: a set that is looked at has at most 32,768 bytes, and each declaration takes one at least.
fn made_row(start: usize, end: usize, file: usize, up: usize, after: usize) -> Row
    requires places { (start < 65536) × (end < 65536) }
    requires numbers { (file < 65536) × (up < 65536) × (after < 65536) }
    ensures { result ≡ record { start = start; end = end; file = file; up = up; after = after } }
{
    Row {
        start: start as u16,
        end: end as u16,
        file: file as u16,
        up: up as u16,
        after: after as u16,
    }
}

// What a table has no room for is left out.
fn put_row(rows: &mut [Row], i: usize, row: Row)
    ensures { rows.new ≡ put rows.old i row }
{
    if i < rows.len() {
        rows[i] = row;
    }
}

// The rows of the embedded messages with this field number of a part that starts at `base` of the set, and of those nested
// in them, from row `i` on. `file` and `up` are as in `Row`.
// No struct of a table and its next row: both functions that call this are lent a table and give the row behind the last, so that
// each would make the struct and take it apart again.
fn index_in(
    part: &[u8],
    base: usize,
    number: u64,
    left: usize,
    file: usize,
    up: usize,
    rows: &mut [Row],
    i: usize,
) -> usize
    requires room { (base + length part.now < 65536) × (i + length part.now < 65536) }
    requires numbers { (file < 65536) × (up < 65536) }
    ensures { (Indexed (forest_in left number part.now base) file up rows.old i rows.new result) × (result ≤ i + length part.now) }
{
    if left == 0 {
        return i;
    }
    let mut next = i;
    // no `filter_map` as in `index_files`: its closure captures `number`; it was tried, and its proof did not close
    for record in Records::new(part, base) {
        if let Ok(record) = record
            && record.number == number
        {
            let bytes = bytes_in(record.value);
            let end = record.start + bytes.len();
            let inner = next + 1;
            let after = index_in(
                bytes,
                record.start,
                MESSAGE_NESTED_TYPE,
                left - 1,
                file,
                inner,
                rows,
                inner,
            );
            put_row(rows, next, made_row(record.start, end, file, up, after));
            next = after;
        }
    }
    next
}

// The record, where it can be read and holds a file.
fn file_in(read: Result<Record<'_>, Fault>) -> Option<Record<'_>>
    ensures { MatchOption result (IfOk read.entry (λ r. r.number ≢ 1)) (λ r. (read.entry ≡ Ok r) × (r.number ≡ 1)) }
{
    read.ok().filter(|record| record.number == SET_FILE)
}

/// The rows of the files' embedded messages with this field number, in so many levels: of their messages (4, in 16 levels),
/// or of their own enums (5, in 1). Where the table is too short, the rows that it has no room for are counted.
pub fn index_files(set: &[u8], number: u64, left: usize, rows: &mut [Row]) -> usize
    ensures { IndexedFiles (file_forests number left set.now) rows.old rows.new result }
{
    // the bound of the definition `file_forests`
    if 32768 < set.len() {
        return 0;
    }
    let mut next = 0;
    let files = Records::new(set, 0).filter_map(file_in);
    for (file, record) in files.enumerate() {
        let bytes = bytes_in(record.value);
        next = index_in(bytes, record.start, number, left, file, 0, rows, next);
    }
    next
}

/// Row `i` of a table.
// One chain of std's functions, as for each table: a function over all would take the row past the end too, and say no less.
pub fn row_of(rows: &[Row], i: usize) -> Row
    ensures { result ≡ row_at rows.now i }
{
    rows.get(i).copied().unwrap_or(NO_ROW)
}

/// The bytes of a row's declaration.
pub fn bytes_of(set: &[u8], row: Row) -> &[u8]
    ensures { result.now ≡ row_bytes set.now row }
{
    descriptor::part_of(set, usize::from(row.start), usize::from(row.end))
}

/// The rows of what the first `count` messages of a table hold with this field number: fields (2), enums (4) or oneofs (8),
/// from row `i` on.
pub fn index_members(
    set: &[u8],
    messages: &[Row],
    count: usize,
    number: u64,
    rows: &mut [Row],
    i: usize,
) -> usize
    ensures { Holds (all_members set.now number messages.now count i) rows.old i rows.new result }
{
    // these bounds and the one below: of the definitions `all_members` and `members`
    if 32768 < set.len() {
        return i;
    }
    if 1024 < count {
        return i;
    }
    let known = count.min(messages.len());
    let mut next = i;
    for (j, message) in messages[..known].iter().enumerate() {
        if 32767 < next {
            return next;
        }
        let part = bytes_of(set, *message);
        let start = usize::from(message.start);
        let file = usize::from(message.file);
        next = index_in(part, start, number, 1, file, j + 1, rows, next);
    }
    next
}
