//! The rows of an options file, one after the other. Nothing is copied.
ghost use Rattle.std.specs.Prelude.{◌≡◌, ◌+◌, ◌*◌, ◌<◌, ◌≤◌, ◌^◌, length, take, drop};
ghost use Rattle.std.specs.Iterator.{item_count, YieldsFirstBy};
ghost use Rattle.options.specs.Settings.{number, row_count, bodies, settings};
ghost use Rattle.options.specs.Kind.{kind_number};
ghost use Rattle.options.specs.Rows.{header, is_of, row_at, row_seen};

use crate::kind::Kind;
use std::marker::Model;

// Document 01's layout: the count of the rows, in so many bytes; a head for each row; the bodies.
pub(crate) const COUNT_BYTES: usize = 2;

// The bytes of a head: four numbers of two bytes.
pub(crate) const HEAD_BYTES: usize = 8;

// A row that no file has, whose head's place fits a `usize`.
const PAST_ALL: usize = 1 << 60;

/// A row: its kind's number, its path and its value. A part that the kind lacks is empty.
#[derive(Clone, Copy)]
pub struct Row<'a> {
    /// As the file gives it: it may be no `Kind`.
    pub kind: u16,
    pub path: &'a [u8],
    pub value: &'a [u8],
}

impl Row<'_> {
    /// Is it a row of the kind?
    pub fn is(&self, kind: Kind) -> bool
        ensures { result ≡ is_of (kind_number kind) (row_seen self.now) }
    {
        self.kind == kind.number()
    }
}

/// The head of a row: the kind's number, the lengths of path and value in bytes, and a zero.
#[derive(Clone, Copy)]
pub(crate) struct Header {
    /// As the file gives it: it may be no `Kind`.
    pub kind: u16,
    pub path_length: u16,
    pub value_length: u16,
    pub zero: u16,
}

/// The little-endian number at a place; a byte past the end counts as 0.
#[tactic(auto, unfolding(crate::specs::Settings::number))]
fn number_at(bytes: &[u8], at: usize) -> u16
    requires { at + 1 < 2 ^ 64 }
    ensures { result ≡ number bytes.now at }
{
    u16::from_le_bytes([base::byte_at(bytes, at), base::byte_at(bytes, at + 1)])
}

/// How many rows there are.
#[tactic(auto, unfolding(crate::specs::Settings::row_count))]
pub fn row_count(bytes: &[u8]) -> u16
    ensures { result ≡ row_count bytes.now }
{
    number_at(bytes, 0)
}

/// Where the bodies start.
#[tactic(auto, unfolding(crate::specs::Settings::bodies))]
pub fn bodies_at(bytes: &[u8]) -> usize
    ensures start { result ≡ bodies bytes.now }
    ensures bound { result < 2 ^ 20 }
{
    COUNT_BYTES + usize::from(row_count(bytes)) * HEAD_BYTES
}

impl Header {
    /// The head of a row.
    #[tactic(auto, unfolding(crate::specs::Settings::kind_at, crate::specs::Settings::path_length, crate::specs::Settings::value_length, crate::specs::Settings::zero_at, crate::specs::Settings::number))]
    #[inline]
    pub(crate) fn read(bytes: &[u8], row: usize) -> Header
        requires { row ≤ 2 ^ 60 }
        ensures { result ≡ header bytes.now row }
    {
        let at = COUNT_BYTES + row * HEAD_BYTES;
        // Tried by `number_at` alone, which misses the bar that no text call gets slower: that of 2,048 fields with 64 field attributes
        // takes 16 percent longer.
        if let Some([a, b, c, d, e, f, g, h]) = bytes.get(at..at + HEAD_BYTES) {
            return Header {
                kind: u16::from_le_bytes([*a, *b]),
                path_length: u16::from_le_bytes([*c, *d]),
                value_length: u16::from_le_bytes([*e, *f]),
                zero: u16::from_le_bytes([*g, *h]),
            };
        }
        Header {
            kind: number_at(bytes, at),
            path_length: number_at(bytes, at + 2),
            value_length: number_at(bytes, at + 4),
            zero: number_at(bytes, at + 6),
        }
    }
}

/// The first `length` bytes, as many as there are.
fn first_bytes(bytes: &[u8], length: u16) -> &[u8]
    ensures { result.now ≡ take length bytes.now }
{
    &bytes[..usize::from(length).min(bytes.len())]
}

/// A row whose body starts at `body`; what is cut of it counts as missing.
pub fn read_row(bytes: &[u8], row: usize, body: usize) -> Row<'_>
    ensures { row_seen result ≡ row_at bytes.now row body }
{
    let header = Header::read(bytes, row.min(PAST_ALL));
    let rest = &bytes[body.min(bytes.len())..];
    let path = first_bytes(rest, header.path_length);
    let value = first_bytes(&rest[path.len()..], header.value_length);
    Row {
        kind: header.kind,
        path,
        value,
    }
}

/// The rows that are left.
#[derive(Drop)]
pub struct Rows<'a> {
    bytes: &'a [u8],
    row: usize,
    count: usize,
    body: usize,
}

impl<'a> Model for Rows<'a> {
    ghost use Rattle.std.specs.Prelude.{◌-◌, ◌≤◌, ◌<◌, ◌^◌, List, length};
    ghost use Rattle.options.specs.Settings.{Setting, settings_from};

    ghost Value = { List Setting };

    ghost view = { λ r. settings_from r.bytes.now (r.count - r.row) r.row r.body };

    ghost invariant = { λ r. (r.row ≤ r.count) × (r.count < 2 ^ 16) × (r.body ≤ length r.bytes.now) };
}

impl<'a> Rows<'a> {
    /// All rows of an options file.
    #[tactic(auto, using(crate::proofs::RowsLaws::all_rows))]
    pub fn new(bytes: &'a [u8]) -> Self
        ensures rows { result ≡ settings bytes.now }
        ensures bound { length result < 2 ^ 16 }
    {
        Rows {
            bytes,
            row: 0,
            count: usize::from(row_count(bytes)),
            body: bodies_at(bytes).min(bytes.len()),
        }
    }
}

impl<'a> Iterator for Rows<'a> {
    type Item = Row<'a>;

    ghost next_gives = { YieldsFirstBy row_seen (λ rest. rest) };

    ghost remaining = { item_count (λ rest. rest) };

    #[tactic(auto, using(crate::proofs::RowsLaws::rows))]
    fn next(&mut self) -> Option<Row<'a>> {
        if self.row >= self.count {
            return None;
        }
        let row = read_row(self.bytes, self.row, self.body);
        self.row += 1;
        self.body += row.path.len() + row.value.len();
        Some(row)
    }
}
