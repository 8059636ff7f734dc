//! What the text's writers read of a message and of a field, by their numbers in declaration order.
#![tactic(auto)]

ghost use Rattle.std.specs.Prelude.{◌≡◌};
ghost use Rattle.text_tables.specs.Rows.{message_row, field_row, place_bytes, is_plain, is_in};

/// A message of the set.
#[derive(Clone, Copy)]
pub struct MessageRow {
    /// May it derive Copy?
    pub copy: bool,
    /// May it derive Eq?
    pub eq: bool,
    /// The number of its first field.
    pub first: u16,
    /// The number of the message behind those nested in it.
    pub after: u16,
}

/// Where the bytes of a declaration lie in the set.
// `u16`, as a row of a table has them; declarations' `Place` lies in any bytes. A type parameter would stand at each use.
#[derive(Clone, Copy)]
pub struct Place {
    pub start: u16,
    pub end: u16,
}

/// A field of the set.
#[derive(Clone, Copy)]
pub struct FieldRow {
    /// Is it boxed by a loop?
    pub looped: bool,
    /// May it derive Copy?
    pub copy: bool,
    /// May it derive Eq?
    pub eq: bool,
    /// Where its bytes lie.
    pub place: Place,
    /// Where those of the map entry lie that it names.
    pub entry: Option<Place>,
    /// The index of the oneof that it is in.
    pub oneof: Option<u16>,
}

/// What a table of messages has past its end.
pub const NO_MESSAGE: MessageRow = MessageRow {
    copy: false,
    eq: false,
    first: 0,
    after: 0,
};

/// What a table of fields has past its end.
pub const NO_FIELD: FieldRow = FieldRow {
    looped: false,
    copy: false,
    eq: false,
    place: Place { start: 0, end: 0 },
    entry: None,
    oneof: None,
};

/// Message `i` of a table.
// This and `field_row` are one chain of std's functions each: a function over both would take the row past the end as well, and
// say no less.
pub fn message_row(rows: &[MessageRow], i: usize) -> MessageRow
    ensures { result ≡ message_row rows.now i }
{
    rows.get(i).copied().unwrap_or(NO_MESSAGE)
}

/// Field `k` of a table.
pub fn field_row(rows: &[FieldRow], k: usize) -> FieldRow
    ensures { result ≡ field_row rows.now k }
{
    rows.get(k).copied().unwrap_or(NO_FIELD)
}

impl Place {
    /// The bytes that lie there.
    pub fn bytes_in(self, set: &[u8]) -> &[u8]
        ensures { result.now ≡ place_bytes set.now self }
    {
        descriptor::part_of(set, usize::from(self.start), usize::from(self.end))
    }
}

impl FieldRow {
    /// Is it in no oneof?
    #[tactic(auto, unfolding(crate::specs::Rows::in_none))]
    pub fn is_plain(&self) -> bool
        ensures { result ≡ is_plain self.now }
    {
        self.oneof.is_none()
    }

    /// Is it in the oneof with the index?
    #[tactic(auto, unfolding(crate::specs::Rows::in_one))]
    pub fn is_in(&self, index: usize) -> bool
        ensures { result ≡ is_in index self.now }
    {
        matches!(self.oneof, Some(own) if usize::from(own) == index)
    }
}
