// Type names: which declaration of a set has a full name. Rows with other checksums are passed over, by chains of the rows whose
// checksums leave one remainder; full names are compared from their ends, and none is built.
#![tactic(auto)]

ghost use Rattle.std.specs.Prelude.{◌≡◌, true, ◌+◌, ◌/◌, ◌%◌, ◌≤◌, ◌<◌, Some, reverse, length, get_or};
ghost use Rattle.std.specs.Option.{unwrap_or, option_map};
ghost use Rattle.std.specs.Iterator.{at_most, item_count, YieldsFirst};
ghost use Rattle.base.specs.Bytes.{same};
ghost use Rattle.checksums.specs.Sums.{sum_of};
ghost use Rattle.declarations.specs.Listed.{above, full, name_of};
ghost use Rattle.declarations.specs.Rows.{kind_number};
ghost use Rattle.type_names.specs.Fronts.{code_of, spelled, Stripped, Climbs};
ghost use Rattle.message_graph.specs.Tab.{tab};
ghost use Rattle.type_names.specs.Chains.{packed, chained, Linked, Chained};
ghost use Rattle.type_names.specs.LookUp.{named, wanted, fits, found_row, same_row, declared_before, row_sum, row_sums};
ghost use Rattle.type_names.specs.RowSums.{Summed, Apart, Others, Seeks, SeeksOn, IsSum};

use declarations::{Declaration, Declarations, Kind};
use std::marker::Model;

/// The declarations that a name is looked up among: all, the enums or the messages.
#[derive(Clone, Copy)]
pub enum Sort {
    Any,
    Enum,
    Message,
}

// The front of a full name: the full name of the row `up`, nothing where there is none, a dot, and `own`.
#[derive(Clone, Copy)]
struct Front<'a> {
    up: Option<usize>,
    own: &'a [u8],
}

// The bytes of a full name that are left, from its end on.
#[derive(Drop)]
struct FromEnd<'a> {
    declared: &'a Declarations<'a>,
    left: Option<Front<'a>>,
}

impl<'a> Model for FromEnd<'a> {
    ghost use Rattle.std.specs.Prelude.{List, ℕ, reverse};
    ghost use Rattle.type_names.specs.Fronts.{spelled};

    ghost Value = { List ℕ };

    ghost view = { λ s. reverse (spelled s.declared.now.set.now s.declared.now.rows.now s.left) };
}

impl<'a> FromEnd<'a> {
    // Those of the full name of a row.
    fn new(declared: &'a Declarations<'a>, row: usize) -> Self
        ensures { result ≡ reverse (full declared.now.set.now declared.now.rows.now (row + 1)) }
    {
        FromEnd {
            declared,
            left: enter(declared, Some(row)),
        }
    }
}

impl<'a> Iterator for FromEnd<'a> {
    type Item = u8;

    ghost next_gives = { YieldsFirst (λ rest. rest) };

    ghost remaining = { item_count (λ rest. rest) };

    #[tactic(auto, using(crate::proofs::FrontLaws::last_byte, crate::proofs::FrontLaws::last_dot))]
    fn next(&mut self) -> Option<u8> {
        let Front { up, own } = self.left?;
        match own {
            [own @ .., byte] => {
                self.left = Some(Front { up, own });
                Some(*byte)
            }
            [] => {
                self.left = enter(self.declared, up);
                Some(b'.')
            }
        }
    }
}

// The full name of a row, if there is one.
fn enter<'a>(declared: &'a Declarations<'a>, row: Option<usize>) -> Option<Front<'a>>
    ensures { spelled declared.now.set.now declared.now.rows.now result ≡ full declared.now.set.now declared.now.rows.now (code_of row) }
{
    let i = row?;
    let row = declared.row(i);
    Some(Front {
        up: above(i, row),
        own: name_of(declared.set, row),
    })
}

// What row `i` stands in; nothing, where that isn't before it.
#[tactic(auto, unfolding(base::specs::Choose::choose))]
fn above(i: usize, row: Declaration) -> Option<usize>
    ensures { code_of result ≡ above i row }
{
    if i < row.up {
        return None;
    }
    row.up.checked_sub(1)
}

// The rows from one upward: that, what it stands in, and so on.
#[derive(Drop)]
struct Upward<'a> {
    declared: &'a Declarations<'a>,
    at: Option<usize>,
}

impl<'a> Model for Upward<'a> {
    ghost use Rattle.type_names.specs.Fronts.{code_of, Climb};

    ghost Value = { Climb };

    ghost view = { λ u. record { rows = u.declared.now.rows.now; code = code_of u.at } };
}

impl<'a> Upward<'a> {
    fn new(declared: &'a Declarations<'a>, row: usize) -> Self
        ensures rows { result.rows ≡ declared.now.rows.now }
        ensures code { result.code ≡ row + 1 }
    {
        Upward {
            declared,
            at: Some(row),
        }
    }
}

impl<'a> Iterator for Upward<'a> {
    type Item = usize;

    ghost next_gives = { Climbs };

    ghost remaining = { λ s. at_most s.code };

    #[tactic(auto, using(declarations::proofs::FullLaws::above_before))]
    fn next(&mut self) -> Option<usize> {
        let i = self.at?;
        self.at = above(i, self.declared.row(i));
        Some(i)
    }
}

// A row's own name.
fn name_of(set: &[u8], row: Declaration) -> &[u8]
    ensures { result.now ≡ name_of set.now row }
{
    let rest = set.get(row.name..).unwrap_or(&[]);
    &rest[..row.len.min(rest.len())]
}

// The checksum of the full name of the row `up`, from its place in `sums`; that of nothing where there is none.
fn sum_above(sums: &[u64], up: Option<usize>) -> u64
    ensures { result ≡ unwrap_or (option_map (λ i. get_or sums.now i 0) up) 0 }
{
    up.and_then(|i| sums.get(i)).copied().unwrap_or(0)
}

// The checksum of the full name of row `i`: that of what it stands in, then of a dot and its own name. `sums` has those of the rows
// before.
fn row_sum(declared: &Declarations<'_>, sums: &[u64], i: usize) -> u64
    requires { Summed declared.now.set.now declared.now.rows.now sums.now i }
    ensures { result ≡ row_sum declared.now.set.now declared.now.rows.now i }
{
    if 65535 < i {
        return 0;
    }
    let row = declared.row(i);
    let around = sum_above(sums, above(i, row));
    let dotted = checksums::checksum_from(around, b".");
    checksums::checksum_from(dotted, name_of(declared.set, row))
}

// For each place of `sums`, the checksum of the full name of the row there.
fn sum_rows(declared: &Declarations<'_>, sums: &mut [u64])
    ensures { sums.new ≡ tab (length sums.old) (row_sum declared.now.set.now declared.now.rows.now) }
{
    for i in 0..sums.len() {
        sums[i] = row_sum(declared, sums, i);
    }
}

// A cell's parts: the checksum of its row, the row before in the same bucket, and the last row of the bucket with the cell's number;
// rows are counted from 1.
// One number, as its definition packs it: the list has the plain checksums first, and the chains are laid into the same cells.
fn sum_in(cell: u64) -> u64
    ensures value { result ≡ cell % 4294967296 }
    ensures upper_bound { result < 4294967296 }
{
    cell % 4294967296
}

fn before_in(cell: u64) -> usize
    ensures value { result ≡ cell / 4294967296 % 65536 }
    ensures upper_bound { result < 65536 }
{
    let high = cell / 4294967296;
    let low = high % 65536;
    // below 2^16; a cast, as `usize` has no `From` of a `u64`, and `try_from` would need an answer for what never fails
    low as usize
}

fn last_in(cell: u64) -> usize
    ensures value { result ≡ cell / 281474976710656 }
    ensures upper_bound { result < 65536 }
{
    let high = cell / 281474976710656;
    // below 2^16, and a cast as above
    high as usize
}

fn pack(sum: u64, before: usize, last: usize) -> u64
    requires { (sum < 4294967296) × (before < 65536) × (last < 65536) }
    ensures { result ≡ packed sum before last }
{
    let shifted = 65536 * last;
    let rows = before + shifted;
    // below 2^32, and a cast as above: `u64` has no `From` of a `usize` either
    let high = rows as u64;
    let upper = 4294967296 * high;
    sum + upper
}

// So many rows of a list with `n` cells are in chains.
#[tactic(auto, unfolding(crate::specs::Chains::chained, base::specs::Choose::choose))]
fn chained(n: usize) -> usize
    ensures { result ≡ chained n }
{
    n.min(65535)
}

// The bucket of a checksum, of `n` buckets.
fn bucket(sum: u64, n: usize) -> usize
    requires { (0 < n) × (n < 65536) }
    ensures value { result ≡ sum % n }
    ensures upper_bound { result < n }
{
    // both below 2^16, and casts as above
    let many = n as u64;
    let rest = sum % many;
    rest as usize
}

// Row `k` goes into the chain of its bucket, of `n`.
fn link(sums: &mut [u64], n: usize, k: usize)
    requires { (k < n) × (n < 65536) × (n ≤ length sums.old) }
    ensures { Linked n k sums.old sums.new }
{
    let cell = sums[k];
    let sum = sum_in(cell);
    let b = bucket(sum, n);
    let before = last_in(sums[b]);
    let own = last_in(cell);
    sums[k] = pack(sum, before, own);
    let first = sums[b];
    let code = k + 1;
    sums[b] = pack(sum_in(first), before_in(first), code);
}

// From the first row to the last.
fn chain(sums: &mut [u64])
    ensures { Chained sums.old sums.new }
{
    let n = chained(sums.len());
    for k in 0..n {
        link(sums, n, k);
    }
}

// For each place of `sums`, the checksum of the full name of the row there, with the chains of the rows.
fn fill_sums(declared: &Declarations<'_>, sums: &mut [u64])
    ensures { sums.new ≡ row_sums declared.now.set.now declared.now.rows.now (length sums.old) }
{
    sum_rows(declared, sums);
    chain(sums);
}

// Has row `i` another checksum than `sum`? Most rows are told apart so.
fn sums_apart(sums: &[u64], i: usize, sum: u64) -> bool
    ensures { result ≡ true → Apart sums.now i sum }
{
    i < sums.len() && sum_in(sums[i]) != sum
}

// Have two rows other checksums?
fn rows_apart(sums: &[u64], i: usize, j: usize) -> bool
    ensures { result ≡ true → (i < length sums.now) × Apart sums.now j (get_or sums.now i 0 % 4294967296) }
{
    i < sums.len() && sums_apart(sums, j, sum_in(sums[i]))
}

// A name without a dot and the own name of row `i` at its end, where it ends so: what is left is to be the full name of what the
// row stands in.
fn strip<'a>(declared: &Declarations<'_>, name: &'a [u8], i: usize) -> Option<&'a [u8]>
    ensures { Stripped declared.now.set.now declared.now.rows.now name.now i result }
{
    let own = name_of(declared.set, declared.row(i));
    name.strip_suffix(own)?.strip_suffix(b".")
}

// Is a row of this kind looked for?
#[tactic(auto, unfolding(crate::specs::LookUp::wanted, declarations::specs::Rows::kind_number, base::specs::Choose::choose))]
fn is_wanted(sort: Sort, kind: Kind) -> bool
    ensures { result ≡ wanted sort (kind_number kind) }
{
    match kind {
        Kind::Package => false,
        Kind::Enum => !matches!(sort, Sort::Message),
        Kind::Message(_) => !matches!(sort, Sort::Enum),
    }
}

// Do two rows have one full name?
fn same_name(declared: &Declarations<'_>, i: usize, j: usize) -> bool
    requires { (i < 65536) × (j < 65536) }
    ensures { result ≡ same (full declared.now.set.now declared.now.rows.now (i + 1)) (full declared.now.set.now declared.now.rows.now (j + 1)) }
{
    let mut second = FromEnd::new(declared, j);
    for byte in FromEnd::new(declared, i) {
        if second.next() != Some(byte) {
            return false;
        }
    }
    second.next().is_none()
}

// Does the declaration in row `j` have the full name of row `i`?
#[tactic(auto, unfolding(crate::specs::LookUp::same_row, declarations::specs::Rows::kind_number, base::specs::Choose::choose))]
fn row_same(declared: &Declarations<'_>, i: usize, j: usize) -> bool
    requires { (i < 65536) × (j < 65536) }
    ensures { result ≡ same_row declared.now.set.now declared.now.rows.now i j }
{
    !matches!(declared.row(j).kind, Kind::Package) && same_name(declared, j, i)
}

/// A set's declarations, and the checksums of the rows' full names with the chains of the rows: by these names are looked up.
#[derive(Clone, Copy)]
pub struct Names<'a> {
    pub declared: Declarations<'a>,
    sums: &'a [u64],
    ghost summed: { sums.now ≡ row_sums declared.set.now declared.rows.now (length sums.now) },
}

impl<'a> Names<'a> {
    /// Of these declarations; the checksums go into `sums`, as far as there is room.
    pub fn new(declared: Declarations<'a>, sums: &'a mut [u64]) -> Self
        ensures { result.declared ≡ declared.entry }
    {
        let used = declared.count.min(sums.len());
        let sums = &mut sums[0..used];
        fill_sums(&declared, sums);
        Names { declared, sums }
    }

    // How many of the rows are left, where those behind have other checksums.
    fn last_like(&self, sum: u64) -> usize
        ensures upper_bound { result ≤ self.now.declared.count }
        ensures others { Others self.now.declared.set.now self.now.declared.rows.now sum result self.now.declared.count }
    {
        let count = self.declared.count;
        let n = chained(self.sums.len());
        if count != n || n == 0 {
            return count;
        }
        let b = bucket(sum, n);
        count.min(last_in(self.sums[b]))
    }

    // The same of the rows before row `k`, which may have it.
    fn like_before(&self, k: usize, sum: u64) -> usize
        ensures upper_bound { result ≤ k }
        ensures others { Others self.now.declared.set.now self.now.declared.rows.now sum result k }
    {
        let n = chained(self.sums.len());
        if n <= k {
            return k;
        }
        let cell = self.sums[k];
        let own = bucket(sum_in(cell), n);
        let b = bucket(sum, n);
        if own != b {
            return k;
        }
        k.min(before_in(cell))
    }

    /// The rows that may have this checksum, from the last to the first.
    pub fn likely(&'a self, sum: u64) -> Likely<'a>
        ensures { Seeks self.now.declared.set.now self.now.declared.rows.now (Some sum) self.now.declared.count result }
    {
        Likely {
            names: self,
            sum: Some(sum),
            left: self.last_like(sum),
        }
    }

    /// The rows before this one that may have its checksum, from the last to the first.
    pub fn likely_before(&'a self, row: usize) -> Likely<'a>
        ensures seeks { Seeks self.now.declared.set.now self.now.declared.rows.now result.sum row result }
        ensures sum { IsSum result.sum (row_sum self.now.declared.set.now self.now.declared.rows.now row) }
    {
        let Some(cell) = self.sums.get(row) else {
            return Likely {
                names: self,
                sum: None,
                left: row,
            };
        };
        let sum = sum_in(*cell);
        Likely {
            names: self,
            sum: Some(sum),
            left: self.like_before(row, sum),
        }
    }

    /// Is this the full name of the row? The answer is right where `sum` is the checksum of the name.
    pub fn is_named(&self, name: &[u8], sum: u64, row: usize) -> bool
        ensures { sum ≡ sum_of name.now → result ≡ named self.now.declared.set.now self.now.declared.rows.now name.now row }
    {
        if 65535 < row || sums_apart(self.sums, row, sum) {
            return false;
        }
        let mut left = name;
        for i in Upward::new(&self.declared, row) {
            let Some(front) = strip(&self.declared, left, i) else {
                return false;
            };
            left = front;
        }
        left.is_empty()
    }

    fn row_fits(&self, name: &[u8], sum: u64, sort: Sort, row: usize) -> bool
        ensures { sum ≡ sum_of name.now → result ≡ fits self.now.declared.set.now self.now.declared.rows.now name.now sort row }
    {
        !sums_apart(self.sums, row, sum)
            && is_wanted(sort, self.declared.row(row).kind)
            && self.is_named(name, sum, row)
    }

    /// The first row that has this full name and is a declaration of the sort.
    pub fn find(&self, name: &[u8], sort: Sort) -> Option<usize>
        ensures { result ≡ found_row self.now.declared.set.now self.now.declared.rows.now name.now sort self.now.declared.count }
    {
        let sum = checksums::checksum(name);
        let mut first = None;
        for row in self.likely(sum) {
            if self.row_fits(name, sum, sort, row) {
                first = Some(row);
            }
        }
        first
    }

    /// Is the full name of the row declared in a row before it?
    pub fn declared_before(&self, row: usize) -> bool
        ensures { result ≡ declared_before self.now.declared.set.now self.now.declared.rows.now row }
    {
        if 65535 < row {
            return false;
        }
        for other in self.likely_before(row) {
            if !rows_apart(self.sums, row, other) && row_same(&self.declared, row, other) {
                return true;
            }
        }
        false
    }
}

/// An iterator over the rows before row `left`, from the last to the first. Where `sum` is a checksum, a row may be left out whose full
/// name has another one, and no other row; where `sum` is `None`, none is left out.
#[derive(Drop)]
pub struct Likely<'a> {
    names: &'a Names<'a>,
    sum: Option<u64>,
    left: usize,
}

impl<'a> Model for Likely<'a> {
    ghost use Rattle.type_names.specs.RowSums.{Seeking};

    ghost Value = { Seeking };

    ghost view = { λ l. record { set = l.names.now.declared.set.now; rows = l.names.now.declared.rows.now; sum = l.sum; left = l.left } };
}

impl<'a> Iterator for Likely<'a> {
    type Item = usize;

    ghost next_gives = { SeeksOn };

    ghost remaining = { λ s. at_most s.left };

    fn next(&mut self) -> Option<usize> {
        let row = self.left.checked_sub(1)?;
        // a match: `map_or` was tried, and the proof did not close
        self.left = match self.sum {
            Some(sum) => self.names.like_before(row, sum),
            None => row,
        };
        Some(row)
    }
}
