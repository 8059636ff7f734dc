//! The declarations of a set: a table of its messages and enums in declaration order, with what each stands in.
#![tactic(auto)]

ghost use Rattle.std.specs.Prelude.{◌≡◌, true, ℕ, ◌+◌, ◌-◌, ◌<◌, ◌≤◌, length};
ghost use Rattle.wire.specs.Records.{part};
ghost use Rattle.declarations.specs.Rows.{row_at, has_room, kind_number, push_message, state, Became, places, last_place, declaration_row, declare_enums, declare_messages, declare_members, declare_file, declared};

pub use counts::Count;
use descriptor::field_number::{
    FILE_ENUM_TYPE, FILE_MESSAGE_TYPE, FILE_PACKAGE, MESSAGE_ENUM_TYPE, MESSAGE_NESTED_TYPE, NAME,
    SET_FILE,
};
use places::{Place, Places};

pub mod counts;
pub mod places;

/// What a row declares: a file's package, an enum, or the message with a number in declaration order. No table has room for
/// more messages than such a number counts.
#[derive(Clone, Copy)]
pub enum Kind {
    Package,
    Enum,
    Message(u16),
}

/// A row: what it declares; where its name starts in the set, and its length; what it stands in (0, or one more than the
/// row of that); the index of its file; and where its bytes lie.
// Places in two numbers each: the definitions `no_row` and `declaration_row` are by these fields.
// `up` is no `Option`, here and where rows are made: full names are defined by this number, which falls from a row to what it
// stands in.
#[derive(Clone, Copy)]
pub struct Declaration {
    pub kind: Kind,
    pub name: usize,
    pub len: usize,
    pub up: usize,
    pub file: usize,
    pub start: usize,
    pub end: usize,
}

/// What a table has past its end.
pub const NO_DECLARATION: Declaration = Declaration {
    kind: Kind::Package,
    name: 0,
    len: 0,
    up: 0,
    file: 0,
    start: 0,
    end: 0,
};

impl Kind {
    /// The number of a kind: 0 for a package, 1 for an enum, 2 and its number for a message.
    #[tactic(auto, unfolding(crate::specs::Rows::kind_number))]
    pub fn number(self) -> usize
        ensures { result ≡ kind_number self }
    {
        match self {
            Kind::Package => 0,
            Kind::Enum => 1,
            Kind::Message(number) => usize::from(number) + 2,
        }
    }
}

/// A set and the table of its declarations, of which the first `count` rows are used.
// The count beside the rows: the definitions of names and of refusals 6 and 7 take both.
#[derive(Clone, Copy)]
pub struct Declarations<'a> {
    pub set: &'a [u8],
    pub rows: &'a [Declaration],
    pub count: usize,
}

impl<'a> Declarations<'a> {
    /// The row with number `i`. No table has a row past 65,535.
    // Its own, as for each table: a function over all would take the row past the end too, and say no less.
    #[tactic(auto, unfolding(crate::specs::Rows::row_at, base::specs::Choose::choose))]
    pub fn row(&self, i: usize) -> Declaration
        ensures { result ≡ row_at self.now.rows.now i }
    {
        if 65535 < i {
            return NO_DECLARATION;
        }
        self.rows.get(i).copied().unwrap_or(NO_DECLARATION)
    }

    /// The bytes of what a row declares; what lies past the set's end is left out.
    pub fn bytes_of(&self, row: Declaration) -> &'a [u8]
        ensures { result.now ≡ part self.now.set.now row.start (row.end - row.start) }
    {
        descriptor::part_of(self.set, row.start, row.end)
    }
}

// Is there room for row `i`?
#[tactic(auto, unfolding(crate::specs::Rows::has_room, base::specs::Choose::choose))]
fn has_room(rows: &[Declaration], i: usize) -> bool
    ensures { result ≡ has_room rows.now i }
{
    i <= 65535 && i < rows.len()
}

// Where the last string with a field number of the message at a place lies.
#[tactic(auto, unfolding(crate::specs::Rows::last_place))]
fn last_string(set: &[u8], part: Place, number: u64) -> Option<Place>
    ensures { result ≡ last_place set.now number part }
{
    Places::new(set, part, number).last()
}

#[tactic(auto, unfolding(crate::specs::Rows::declaration_row))]
fn declaration_row(set: &[u8], place: Place, file: usize, up: usize, kind: Kind) -> Declaration
    ensures { result ≡ declaration_row set.now file up kind place }
{
    let name = last_string(set, place, NAME).unwrap_or_default();
    Declaration {
        kind,
        name: name.start,
        len: name.end.saturating_sub(name.start),
        up,
        file,
        start: place.start,
        end: place.end,
    }
}

// The enums with this field number of the message at a place.
// A table and its count go in and out, here and below, as `state` and `Became` of the definitions have them.
fn declare_enums(
    set: &[u8],
    part: Place,
    number: u64,
    file: usize,
    up: usize,
    rows: &mut [Declaration],
    counted: Count,
) -> Count
    ensures { Became (declare_enums set.now file up (places set.now number part) (state rows.old counted)) rows.new result }
{
    let mut count = counted;
    for place in Places::new(set, part, number) {
        let row = count.rows;
        if !has_room(rows, row) {
            return count;
        }
        rows[row] = declaration_row(set, place, file, up, Kind::Enum);
        count = count.with_row();
    }
    count
}

// The message at this place in the next row, and its enums.
fn declare_message(
    set: &[u8],
    place: Place,
    file: usize,
    up: usize,
    rows: &mut [Declaration],
    count: Count,
) -> Count
    requires { has_room rows.old count.rows ≡ true }
    ensures { Became (declare_enums set.now file (count.rows + 1) (places set.now 4 place) (push_message (declaration_row set.now file up (Kind.Message count.messages) place) (state rows.old count))) rows.new result }
{
    // a cast: there is room for the row, so that the number is below 65,536
    let kind = Kind::Message(count.messages as u16);
    rows[count.rows] = declaration_row(set, place, file, up, kind);
    let own = count.with_message();
    declare_enums(set, place, MESSAGE_ENUM_TYPE, file, own.rows, rows, own)
}

// The messages with this field number of the message at a place, with what is nested in them in so many levels.
fn declare_messages(
    set: &[u8],
    part: Place,
    number: u64,
    left: usize,
    file: usize,
    up: usize,
    rows: &mut [Declaration],
    counted: Count,
) -> Count
    ensures { Became (declare_messages set.now file left up (places set.now number part) (state rows.old counted)) rows.new result }
{
    if left == 0 {
        return counted;
    }
    let mut count = counted;
    for place in Places::new(set, part, number) {
        let row = count.rows;
        if !has_room(rows, row) {
            return count;
        }
        let own = declare_message(set, place, file, up, rows, count);
        count = declare_messages(
            set,
            place,
            MESSAGE_NESTED_TYPE,
            left - 1,
            file,
            row + 1,
            rows,
            own,
        );
    }
    count
}

// The messages and the enums of a file.
#[tactic(auto, using(crate::proofs::FileLaws::members_are))]
fn declare_members(
    set: &[u8],
    part: Place,
    file: usize,
    up: usize,
    rows: &mut [Declaration],
    count: Count,
) -> Count
    ensures { Became (declare_members set.now file up part (state rows.old count)) rows.new result }
{
    let messages = declare_messages(set, part, FILE_MESSAGE_TYPE, 16, file, up, rows, count);
    declare_enums(set, part, FILE_ENUM_TYPE, file, up, rows, messages)
}

fn declare_file(
    set: &[u8],
    part: Place,
    file: usize,
    rows: &mut [Declaration],
    count: Count,
) -> Count
    ensures { Became (declare_file set.now file part (state rows.old count)) rows.new result }
{
    let Some(package) = last_string(set, part, FILE_PACKAGE) else {
        return declare_members(set, part, file, 0, rows, count);
    };
    if !has_room(rows, count.rows) {
        return count;
    }
    rows[count.rows] = Declaration {
        kind: Kind::Package,
        name: package.start,
        len: package.end.saturating_sub(package.start),
        up: 0,
        file,
        start: part.start,
        end: part.end,
    };
    let own = count.with_row();
    declare_members(set, part, file, own.rows, rows, own)
}

/// The table of a set's declarations. Where it is too short, the rows from there on are left out.
pub fn declare_set(set: &[u8], rows: &mut [Declaration]) -> Count
    ensures { Became (declared set.now rows.old) rows.new result }
{
    let whole = Place {
        start: 0,
        end: set.len(),
    };
    let mut count = Count::none();
    for (file, part) in Places::new(set, whole, SET_FILE).enumerate() {
        count = declare_file(set, part, file, rows, count);
    }
    count
}
