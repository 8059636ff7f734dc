//! path.rs: which rows of the options a path finds.
#![tactic(auto)]

ghost use Rattle.std.specs.Prelude.{◌≡◌, IsTrue, [], ◌∷◌, ◌<◌, ◌≤◌, ◌^◌, length};
ghost use Rattle.base.specs.Choose.{choose};
ghost use Rattle.options.specs.Kind.{kind_number};
ghost use Rattle.options.specs.Rows.{row_seen};
ghost use Rattle.path.specs.Forms.{suffixes, prefixes, among};
ghost use Rattle.path.specs.PathMap.{get, get_first, number_of};
ghost use Rattle.path.specs.Worth.{weighed, global, worth_in, worth_of, improve, best_of, none_yet};

use options::{Kind, Options, Row};

pub mod values;

pub use values::Values;

/// The best row so far, and what its form is worth: 0 while there is none.
// No Option: 0 is below each worth, so that one `<` finds the best, as the definition of specs/Worth weighs.
#[derive(Clone, Copy)]
pub struct Best {
    pub worth: usize,
    pub number: usize,
}

impl Best {
    /// No row yet.
    pub const NONE: Best = Best {
        worth: 0,
        number: 0,
    };

    /// A row is better than the best so far only if it is worth more.
    #[tactic(auto, unfolding(crate::specs::Worth::improve, base::specs::Choose::choose))]
    pub fn improved(self, number: usize, worth: usize) -> Best
        ensures { result ≡ improve self number worth }
    {
        if self.worth < worth {
            Best { worth, number }
        } else {
            self
        }
    }
}

/// Does x stand at the end of the path, right behind a `.`?
// By places, here and in `is_prefix`, and the dot first: with `strip_suffix` and `strip_prefix` 8 million look-ups took 43 to 69
// milliseconds in place of 34 to 38.
#[tactic(auto, using(crate::proofs::FormLaws::suffix_laws))]
fn is_suffix(path: &[u8], x: &[u8]) -> bool
    ensures form { result ≡ among x.now (suffixes path.now) }
    ensures shorter { IsTrue result → length x.now < length path.now }
{
    !x.is_empty()
        && x.len() < path.len()
        && path[path.len() - x.len() - 1] == b'.'
        && x == &path[path.len() - x.len()..]
}

/// Does x stand at the start of the path, right before a `.`?
#[tactic(auto, using(crate::proofs::FormLaws::prefix_laws))]
fn is_prefix(path: &[u8], x: &[u8]) -> bool
    ensures form { result ≡ among x.now (prefixes path.now) }
    ensures shorter { IsTrue result → length x.now < length path.now }
{
    !x.is_empty() && x.len() < path.len() && path[x.len()] == b'.' && x == &path[..x.len()]
}

/// What x is worth as a form of the path: the better form the more, 0 if it is none. Without `all`, only the path itself and
/// its prefixes are forms.
// `all` is a bool, as `weighed` of specs/Worth takes it: with an enum, each clause would turn it into one.
#[tactic(auto, unfolding(base::specs::Choose::choose), using(crate::proofs::BestLaws::worths))]
pub fn worth(path: &[u8], all: bool, x: &[u8]) -> usize
    ensures { result ≡ worth_in (weighed all path.now) x.now }
{
    if x == path {
        return usize::MAX;
    }
    if all && is_suffix(path, x) {
        return path.len() + 1 + x.len();
    }
    if is_prefix(path, x) {
        return 1 + x.len();
    }
    usize::from(all && x == b".".as_slice())
}

/// What a row is worth: nothing if it has another kind.
#[tactic(auto, unfolding(crate::specs::Worth::worth_of, base::specs::Choose::choose))]
fn row_worth(row: &Row<'_>, kind: u16, path: &[u8], all: bool) -> usize
    ensures { result ≡ worth_of (weighed all path.now) kind (row_seen row.now) }
{
    if row.kind == kind {
        worth(path, all, row.path)
    } else {
        0
    }
}

/// The row of a kind whose path is worth most, the first of several.
// A number, and no `Kind`, as the definition `best_of` has it: rows may have a number that is no `Kind`.
#[tactic(auto, unfolding(crate::specs::Worth::best_of))]
pub fn best_row(options: &Options<'_>, kind: u16, path: &[u8], all: bool) -> Best
    ensures best { result ≡ best_of (weighed all path.now) kind none_yet 0 options.now }
    ensures number { result.number < 2 ^ 16 }
{
    let mut best = Best::NONE;
    for (number, row) in options.rows().enumerate() {
        best = best.improved(number, row_worth(&row, kind, path, all));
    }
    best
}

/// The number of the row that a single look-up picks.
#[tactic(auto, using(crate::proofs::MatchLaws::first_found))]
pub fn get_first(options: &Options<'_>, kind: Kind, path: &[u8]) -> Option<usize>
    ensures { result ≡ number_of (get_first (kind_number kind) path.now options.now) }
{
    let best = best_row(options, kind.number(), path, true);
    (best.worth != 0).then_some(best.number)
}
