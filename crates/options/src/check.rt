//! Refusal 1: options that break the layout.
ghost use Rattle.std.specs.Prelude.{◌≡◌, ◌+◌, ◌<◌, ◌≤◌, true, ltb, length};
ghost use Rattle.base.specs.Choose.{choose};
ghost use Rattle.options.specs.Kind.{kind_number};
ghost use Rattle.options.specs.Rows.{header};
ghost use Rattle.options.specs.Settings.{row_count, path_length, value_length, bodies};
ghost use Rattle.options.specs.declared.check.TheConstants.{MAX_ROWS};
ghost use Rattle.options.specs.Layout.{fits, kind_before, header_good, printable, body_good, row_good, layout_from, layout};

use crate::kind::Kind;
use crate::rows::{COUNT_BYTES, HEAD_BYTES, Header, Rows, bodies_at, row_count};
use base::refusal::Refusal;

const MAX_ROWS: usize = 64;

const MAX_BYTES: usize = 4096;

/// Stands a row of the kind before a row?
fn stands_before(bytes: &[u8], kind: Kind, row: usize) -> bool
    requires { row < row_count bytes.now }
    ensures { result ≡ kind_before bytes.now (kind_number kind) row }
{
    Rows::new(bytes).take(row).any(|earlier| earlier.is(kind))
}

/// A part that a kind has isn't empty; a part it lacks is.
#[tactic(auto, unfolding(crate::specs::Layout::fits, base::specs::Choose::choose))]
fn fits(has: bool, length: u16) -> bool
    ensures { result ≡ fits has length }
{
    has == (length != 0)
}

/// Are all bytes at least `low` and at most 0x7E?
fn is_printable(low: u8, bytes: &[u8]) -> bool
    ensures { result ≡ printable low bytes.now }
{
    bytes.iter().all(|byte| (low..=0x7e).contains(byte))
}

/// A row whose body starts at `body`.
#[derive(Clone, Copy)]
struct Judged<'a> {
    bytes: &'a [u8],
    row: usize,
    head: Header,
    body: usize,
    ghost is_row: { row < row_count bytes.now },
    ghost few: { row < MAX_ROWS },
    ghost is_head: { head ≡ header bytes.now row },
    ghost near: { body < 1000000000000 },
}

impl Judged<'_> {
    /// Is its head good?
    #[tactic(auto, unfolding(crate::specs::Layout::header_good, crate::specs::Layout::repeated), using(crate::proofs::KindLaws::kinds))]
    fn is_head_good(&self) -> bool
        ensures { result ≡ header_good self.now.bytes.now self.now.row }
    {
        // no `is_ok_and`: with it the proof did not close
        match Kind::try_from(self.head.kind) {
            Ok(kind) => {
                self.head.zero == 0
                    && fits(kind.has_path(), self.head.path_length)
                    && fits(kind.has_value(), self.head.value_length)
                    && !(kind.stands_once() && stands_before(self.bytes, kind, self.row))
            }
            Err(_) => false,
        }
    }

    /// Is its body good? One that is cut isn't judged.
    #[tactic(auto, unfolding(crate::specs::Layout::body_good, base::specs::Choose::choose))]
    fn is_body_good(&self) -> bool
        ensures { result ≡ choose (ltb (length self.now.bytes.now) (self.now.body + path_length self.now.bytes.now self.now.row + value_length self.now.bytes.now self.now.row)) true (body_good self.now.bytes.now self.now.row self.now.body) }
    {
        let value = self.body + usize::from(self.head.path_length);
        let end = value + usize::from(self.head.value_length);
        self.bytes.len() < end
            || (is_printable(b'!', &self.bytes[self.body..value])
                && is_printable(b' ', &self.bytes[value..end]))
    }

    /// Is it good? A head that is cut isn't judged.
    #[tactic(auto, unfolding(crate::specs::Layout::row_good, base::specs::Choose::choose))]
    fn is_good(&self) -> bool
        ensures { result ≡ row_good self.now.bytes.now self.now.row self.now.body }
    {
        self.bytes.len() < COUNT_BYTES + (self.row + 1) * HEAD_BYTES
            || (self.is_head_good() && self.is_body_good())
    }
}

/// All rows, in an options file of `size` bytes that begins with `bytes`.
#[tactic(auto, using(crate::proofs::LayoutLaws::layouts))]
fn check_rows(bytes: &[u8], size: usize) -> Result<(), Refusal>
    requires { row_count bytes.now ≤ MAX_ROWS }
    ensures { result ≡ layout_from bytes.now size (row_count bytes.now) 0 (bodies bytes.now) }
{
    let count = usize::from(row_count(bytes));
    let mut body = bodies_at(bytes);
    for row in 0..count {
        let head = Header::read(bytes, row);
        let judged = Judged {
            bytes,
            row,
            head,
            body,
        };
        if !judged.is_good() {
            return Err(Refusal::Layout { row });
        }
        body += usize::from(head.path_length) + usize::from(head.value_length);
    }
    if body != size || body > MAX_BYTES {
        return Err(Refusal::Layout { row: count });
    }
    Ok(())
}

/// Does an options file keep to the layout? If not, refusal 1 with the first row that breaks it, or the row count where the
/// length does.
#[tactic(auto, using(crate::proofs::LayoutLaws::whole_layouts))]
pub fn check(bytes: &[u8]) -> Result<(), Refusal>
    ensures { result ≡ layout bytes.now }
{
    if bytes.len() < COUNT_BYTES {
        return Err(Refusal::Layout { row: 0 });
    }
    if usize::from(row_count(bytes)) > MAX_ROWS {
        return Err(Refusal::Layout { row: 0 });
    }
    check_rows(&bytes[..bytes.len().min(MAX_BYTES)], bytes.len())
}
