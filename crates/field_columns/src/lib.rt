//! What a row of a table of fields says: whose field it is, its type and label; and where each message's fields begin.
#![tactic(auto)]

ghost use Rattle.std.specs.Prelude.{◌≡◌, ◌<◌, ◌≤◌, length};
ghost use Rattle.base.specs.Lists.{first_failing};
ghost use Rattle.message_graph.specs.Tab.{tab};
ghost use Rattle.field_columns.specs.Columns.{owner_of, owner_at, byte_of, rows_counted, first_rows, before, start_at};

use index::Row;
use message_graph::Index;

// The most rows that a table has.
const MOST_ROWS: usize = 65535;

// The number of the message that a row with this `up` (see index's `Row`) stands in; 0 for a number that no message can have.
#[tactic(auto, unfolding(crate::specs::Columns::owner_of, base::specs::Choose::choose))]
fn owner_of(up: u16) -> Index
    ensures { result ≡ owner_of up }
{
    // An `Index` holds each number that a message can have. No Option: the definition gives 0.
    Index::try_from(up.saturating_sub(1)).unwrap_or(0)
}

/// The number of the message that has field `i`.
pub fn owner_at(fields: &[Row], i: usize) -> Index
    ensures { result ≡ owner_at fields.now i }
{
    owner_of(index::row_of(fields, i).up)
}

/// A number in one byte; 0 where it is over 255.
// No Option: the definition gives 0.
#[tactic(auto, unfolding(crate::specs::Columns::byte_of, base::specs::Choose::choose))]
pub fn byte_of(n: u32) -> u8
    ensures { result ≡ byte_of n }
{
    u8::try_from(n).unwrap_or(0)
}

fn rows_counted(count: usize) -> usize
    ensures { (result ≡ rows_counted count) × (result < 65536) }
{
    count.min(MOST_ROWS)
}

// A count stands beside the rows, here and below: rows that their table has no room for are counted too.

// The first row from row `k` on that belongs to message `i` or a later one.
fn start_from(fields: &[Row], count: usize, i: usize, k: usize) -> usize
    requires { k ≤ first_failing (before i) (first_rows fields.now count) }
    ensures { result ≡ first_failing (before i) (first_rows fields.now count) }
{
    for n in k..count {
        let up = usize::from(index::row_of(fields, n).up);
        if i < up {
            return n;
        }
    }
    count
}

/// For each place of `first`, the row where the fields of the message with that number begin, of `count` rows.
pub fn fill_starts(fields: &[Row], count: usize, first: &mut [u16])
    ensures { first.new ≡ tab (length first.old) (start_at fields.now count) }
{
    let rows = rows_counted(count);
    let mut k = 0;
    for (i, start) in first.iter_mut().enumerate() {
        k = start_from(fields, rows, i, k);
        // No From: k is at most MOST_ROWS.
        *start = k as u16;
    }
}
