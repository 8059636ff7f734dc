//! A tally of cases.
ghost use Rattle.std.specs.Prelude.{◌≡◌, ◌+◌, ◌++◌, ◌≤◌, if◌then◌else◌, Some, codes, decimal, min};
ghost use Rattle.cases.specs.Tally.{one_more, sum_of};

use std::fmt;
use std::fmt::Display;

/// The count of cases at which the programs that compare lists or packs stay, and the last index that they print.
pub const MOST: u64 = 1_000_000;

/// How many cases were compared, and how many of them differ; each stays at `u64::MAX` once it is there.
#[derive(Clone, Copy, Debug, PartialEq, Eq)]
pub struct Tally {
    pub compared: u64,
    pub differ: u64,
    ghost some: { differ ≤ compared },
}

impl Tally {
    pub fn new() -> Self
        ensures compared { result.compared ≡ 0 }
        ensures differ { result.differ ≡ 0 }
    {
        Tally {
            compared: 0,
            differ: 0,
        }
    }

    /// Counts one more case; `same`: its answer is the recorded one.
    pub fn count(&mut self, same: bool)
        ensures compared { self.new.compared ≡ one_more self.old.compared }
        ensures differ { self.new.differ ≡ (if same then self.old.differ else one_more self.old.differ) }
    {
        self.compared = self.compared.saturating_add(1);
        if !same {
            self.differ = self.differ.saturating_add(1);
        }
    }

    /// The cases of both.
    pub fn plus(self, other: Tally) -> Self
        ensures compared { result.compared ≡ sum_of self.compared other.compared }
        ensures differ { result.differ ≡ sum_of self.differ other.differ }
    {
        Tally {
            compared: self.compared.saturating_add(other.compared),
            differ: self.differ.saturating_add(other.differ),
        }
    }

    /// The same, with counts that stay at `most`.
    pub fn at_most(self, most: u64) -> Self
        ensures compared { result.compared ≡ min self.compared most }
        ensures differ { result.differ ≡ min self.differ most }
    {
        Tally {
            compared: self.compared.min(most),
            differ: self.differ.min(most),
        }
    }
}

impl Display for Tally {
    ghost output = { λ t. Some (decimal t.compared ++ codes " compared, " ++ decimal t.differ ++ codes " differ") };

    fn fmt<W: fmt::Write>(&self, f: &mut fmt::Formatter<W>) -> fmt::Result {
        let compared = self.compared;
        let differ = self.differ;
        write!(f, "{compared} compared, {differ} differ")
    }
}
