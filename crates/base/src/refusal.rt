//! Document 01's table of refusals.
ghost use Rattle.std.specs.Prelude.{◌≡◌};
ghost use Rattle.base.specs.Refusal.{refusal_number, refusal_place, returned};

/// Why a call refuses, with the place that the table returns for it. The table's order is that of the numbers.
#[derive(Clone, Copy, PartialEq, Eq, Debug)]
pub enum Refusal {
    /// 1: the options break the layout, first in this row.
    Layout { row: usize },
    /// 2: an extern path is invalid, or doubled, first in this row.
    ExternPath { row: usize },
    /// 3: the set can't be read; the offset of the innermost field key at the first fault.
    Unreadable { offset: usize },
    /// 4: the lowest limit that is passed.
    Limit { limit: usize },
    /// 5: no file has the index; the count of files.
    FileIndex { count: usize },
    /// 6: a declaration is at fault, first in this file.
    Declaration { file: usize },
    /// 7: a type name isn't declared, or a full name was declared before, first in this file.
    TypeName { file: usize },
    /// 8: written enum variants overlap.
    Variants,
    /// 9: a bytes default to be written doesn't unescape.
    BytesDefault,
    /// 10: the text is longer than the buffer or 65,536 bytes; the length needed.
    TextLength { needed: usize },
}

impl Refusal {
    /// The number that the table returns.
    pub fn number(self) -> u32
        ensures { result ≡ refusal_number self }
    {
        match self {
            Refusal::Layout { .. } => 1,
            Refusal::ExternPath { .. } => 2,
            Refusal::Unreadable { .. } => 3,
            Refusal::Limit { .. } => 4,
            Refusal::FileIndex { .. } => 5,
            Refusal::Declaration { .. } => 6,
            Refusal::TypeName { .. } => 7,
            Refusal::Variants => 8,
            Refusal::BytesDefault => 9,
            Refusal::TextLength { .. } => 10,
        }
    }

    /// The place that the table returns.
    pub fn place(self) -> usize
        ensures { result ≡ refusal_place self }
    {
        match self {
            Refusal::Layout { row } => row,
            Refusal::ExternPath { row } => row,
            Refusal::Unreadable { offset } => offset,
            Refusal::Limit { limit } => limit,
            Refusal::FileIndex { count } => count,
            Refusal::Declaration { file } => file,
            Refusal::TypeName { file } => file,
            Refusal::Variants => 0,
            Refusal::BytesDefault => 0,
            Refusal::TextLength { needed } => needed,
        }
    }
}

/// What a call returns, as document 01's table has it: 0 and what was asked for, or a refusal's number and place.
#[derive(Clone, Copy, PartialEq, Eq, Debug)]
pub struct Returned {
    pub number: u32,
    pub place: usize,
}

impl From<Result<usize, Refusal>> for Returned {
    ghost from_gives = { λ answer r. r ≡ returned answer };

    fn from(answer: Result<usize, Refusal>) -> Returned {
        match answer {
            Ok(place) => Returned { number: 0, place },
            Err(refusal) => Returned {
                number: refusal.number(),
                place: refusal.place(),
            },
        }
    }
}
