//! The options file: its rows, read where they lie. Nothing is copied.
#![tactic(auto)]

ghost use Rattle.std.specs.Prelude.{◌≡◌, ◌<◌, ◌^◌, length, slice_get, find};
ghost use Rattle.std.specs.List.{list_any};
ghost use Rattle.std.specs.Option.{option_map};
ghost use Rattle.options.specs.Kind.{kind_number};
ghost use Rattle.options.specs.Rows.{row_seen, is_of};
ghost use Rattle.options.specs.Settings.{settings, prost_path, strips_prefix};

pub mod check;
pub mod kind;
pub mod rows;

pub use kind::Kind;
pub use rows::{Row, Rows};
use std::marker::Model;

/// An options file. A clause sees it as the list of its rows.
#[derive(Drop)]
pub struct Options<'a> {
    bytes: &'a [u8],
}

impl<'a> Model for Options<'a> {
    ghost use Rattle.std.specs.Prelude.{List};
    ghost use Rattle.options.specs.Settings.{Setting, settings};

    ghost Value = { List Setting };

    ghost view = { λ o. settings o.bytes.now };
}

impl<'a> Options<'a> {
    /// The rows that lie in `bytes`; what is cut counts as missing.
    pub fn new(bytes: &'a [u8]) -> Self
        ensures { result ≡ settings bytes.now }
    {
        Options { bytes }
    }

    /// The rows in their order.
    pub fn rows(&self) -> Rows<'a>
        ensures rows { result ≡ self.now }
        ensures bound { length result < 2 ^ 16 }
    {
        Rows::new(self.bytes)
    }

    /// How many rows there are.
    #[tactic(auto, using(crate::proofs::RowsLaws::settings_length))]
    pub fn row_count(&self) -> usize
        ensures count { result ≡ length self.now }
        ensures bound { result < 2 ^ 16 }
    {
        usize::from(rows::row_count(self.bytes))
    }

    /// The row with a number, counted from 0.
    pub fn row(&self, number: usize) -> Option<Row<'a>>
        ensures { option_map row_seen result ≡ slice_get self.now number }
    {
        self.rows().nth(number)
    }

    /// The first row of a kind.
    pub fn find(&self, kind: Kind) -> Option<Row<'a>>
        ensures { option_map row_seen result ≡ find (is_of (kind_number kind)) self.now }
    {
        self.rows().find(|row| row.is(kind))
    }

    /// Is there a row of a kind?
    pub fn has(&self, kind: Kind) -> bool
        ensures { result ≡ list_any (is_of (kind_number kind)) self.now }
    {
        self.rows().any(|row| row.is(kind))
    }

    /// The path of prost in Rust, `::prost` unless a row sets it.
    #[tactic(auto, using(crate::proofs::FindLaws::finds))]
    pub fn prost_path(&self) -> &'a [u8]
        ensures { result.now ≡ prost_path self.now }
    {
        self.find(Kind::ProstPath)
            .map_or(b"::prost", |row| row.value)
    }

    /// Is an enum's name stripped from its values' names?
    #[tactic(auto, using(crate::proofs::FindLaws::finds))]
    pub fn strips_enum_prefix(&self) -> bool
        ensures { result ≡ strips_prefix self.now }
    {
        !self.has(Kind::RetainEnumPrefix)
    }
}
