//! The rows that a path finds, one after the other.
ghost use Rattle.std.specs.Prelude.{◌≡◌};
ghost use Rattle.std.specs.Iterator.{item_count, YieldsFirstRef};
ghost use Rattle.options.specs.Kind.{kind_number};
ghost use Rattle.path.specs.PathMap.{get};

use options::{Kind, Options, Rows};
use std::marker::Model;

/// The values of the rows of a kind that a path finds and that are left.
#[derive(Drop)]
pub struct Values<'a> {
    rows: Rows<'a>,
    kind: Kind,
    path: &'a [u8],
}

impl<'a> Model for Values<'a> {
    ghost use Rattle.std.specs.Prelude.{◌<◌, ◌^◌, List, length, ℕ};
    ghost use Rattle.options.specs.Kind.{kind_number};
    ghost use Rattle.path.specs.PathMap.{get};

    ghost Value = { List (List ℕ) };

    ghost view = { λ v. get (kind_number v.kind) v.path.now v.rows };

    ghost invariant = { λ v. length v.path.now < 2 ^ 63 };
}

impl<'a> Values<'a> {
    /// The values of all rows of a kind that a path finds, in the rows' order.
    pub fn new(options: &Options<'a>, kind: Kind, path: &'a [u8]) -> Self
        ensures { result ≡ get (kind_number kind) path.now options.now }
    {
        Values {
            rows: options.rows(),
            kind,
            path,
        }
    }
}

impl<'a> Iterator for Values<'a> {
    type Item = &'a [u8];

    ghost next_gives = { YieldsFirstRef (λ rest. rest) };

    ghost remaining = { item_count (λ rest. rest) };

    fn next(&mut self) -> Option<&'a [u8]> {
        let kind = self.kind;
        let path = self.path;
        let found = self.rows.find(|row| row.is(kind) && crate::worth(path, true, row.path) != 0);
        found.map(|row| row.value)
    }
}
