//! Which message leads to which through links, over the fields of a set.
#![tactic(auto)]

ghost use Rattle.std.specs.Prelude.{◌≡◌, false, ◌+◌, ◌&&◌, ◌<◌, ◌^◌, length, get_or};
ghost use Rattle.message_graph.specs.Limit.{messages};
ghost use Rattle.message_graph.specs.Fields.{is_link};
ghost use Rattle.message_graph.specs.Leads.{leadsb};
ghost use Rattle.message_graph.specs.Boxes.{may_loop, boxed_by_loop};
ghost use Rattle.message_graph.specs.Marks.{Visited};
ghost use Rattle.message_graph.specs.Rows.{message_of, row_at, fields_of, is_link_of, Part, with_field};
ghost use Rattle.message_graph.specs.Tab.{tab};

use std::marker::Model;

/// A message's number, in declaration order.
pub type Index = u8;

/// How many messages a set may have: limit 3.
// Its own, and not limits': this crate reads no set.
pub const MESSAGES: usize = 256;

/// A message's number as a place in a table with a row for each message.
// Kept beside `usize::from`: of a struct's field the check doesn't know that it fits a byte, and so not that the place is in the table.
#[tactic(auto, using(crate::proofs::RowLaws::message_of_is))]
pub fn place_of(message: Index) -> usize
    ensures message { result ≡ message_of message }
    ensures bound { result < messages }
{
    usize::from(message)
}

// descriptor.proto's numbers.
// Its own, and not descriptor's: this crate reads no set, and a row has them as `u8`.
pub const TYPE_GROUP: u8 = 10;

pub const TYPE_MESSAGE: u8 = 11;

pub const LABEL_REPEATED: u8 = 3;

/// A field of a set: its message, the message that is its type (0 where its type is none), its type and label by
/// descriptor.proto's numbers, and whether it has a boxed setting at `.M.f`. Type and label may be numbers that
/// descriptor.proto doesn't have: where a set gives one over 255 it is 0 here, and where it gives none, 1.
// Numbers, and no `Option<Type>`: the definitions' rules are over any number that a set may give, and ask for message, group and
// repeated alone. No Option of a target: it is read for messages and groups alone, which have one.
#[derive(Clone, Copy)]
pub struct Field {
    pub owner: Index,
    pub target: Index,
    pub kind: u8,
    pub label: u8,
    pub boxed: bool,
}

/// What a table of fields has past its end.
pub const NO_FIELD: Field = Field {
    owner: 0,
    target: 0,
    kind: 0,
    label: 0,
    boxed: false,
};

impl Field {
    /// Is it a link: of type message, and not repeated?
    #[tactic(auto, unfolding(crate::specs::Fields::is_link))]
    pub fn is_link(self) -> bool
        ensures { result ≡ is_link self.kind self.label }
    {
        self.kind == TYPE_MESSAGE && self.label != LABEL_REPEATED
    }

    // Is it a link of the message?
    fn is_link_of(self, message: usize) -> bool
        ensures { result ≡ is_link_of self message }
    {
        place_of(self.owner) == message && self.is_link()
    }

    // Can it need a Box since its type leads back: singular, of type message or group?
    #[tactic(auto, unfolding(crate::specs::Boxes::may_loop))]
    fn may_loop(self) -> bool
        ensures { result ≡ may_loop self.kind self.label }
    {
        (self.kind == TYPE_MESSAGE || self.kind == TYPE_GROUP) && self.label != LABEL_REPEATED
    }
}

/// The field with number `i`.
// One chain of std's functions, as for each table: a function over all would take the row past the end too, and say no less.
pub fn field_at(fields: &[Field], i: usize) -> Field
    ensures { result ≡ row_at fields.now i }
{
    fields.get(i).copied().unwrap_or(NO_FIELD)
}

// A range of a table of fields: from its first field to the one behind its last.
// Not std's `Range`, which is not `Copy`: ranges are copied out of the array.
#[derive(Clone, Copy)]
struct Range {
    first: usize,
    end: usize,
}

// Of no field. No Option: `fields_of` reads it as the range that it is.
const NO_RANGE: Range = Range { first: 0, end: 0 };

impl Range {
    // The range and the field i, which stands behind it.
    fn with_field(self, i: usize) -> Range
        requires { i + 1 < 2 ^ 64 }
        ensures { result ≡ with_field self i }
    {
        Range {
            first: if self.end == 0 { i } else { self.first },
            end: i + 1,
        }
    }
}

/// The fields of a set, and where those of each message lie.
#[derive(Drop)]
pub struct Graph<'a> {
    fields: &'a [Field],
    ranges: [Range; MESSAGES],
}

impl<'a> Model for Graph<'a> {
    ghost use Rattle.std.specs.Prelude.{List, length};
    ghost use Rattle.message_graph.specs.declared.Field.{Field};
    ghost use Rattle.message_graph.specs.Rows.{RangedTo};

    ghost Value = { List Field };

    ghost view = { λ g. g.fields.now };

    ghost invariant = { λ g. RangedTo g.fields.now g.ranges (length g.fields.now) };
}

impl<'a> Graph<'a> {
    /// The graph of these fields.
    pub fn new(fields: &'a [Field]) -> Self
        ensures { result ≡ fields.now }
    {
        let mut ranges = [NO_RANGE; MESSAGES];
        for (i, field) in fields.iter().enumerate() {
            let owner = place_of(field.owner);
            ranges[owner] = ranges[owner].with_field(i);
        }
        Graph { fields, ranges }
    }

    /// Its fields.
    pub fn fields(&self) -> &'a [Field]
        ensures { result.now ≡ self.now }
    {
        self.fields
    }

    /// A part of the fields that has all of the message's, and maybe others; none of a number that no message can have.
    pub fn fields_of(&self, message: usize) -> &'a [Field]
        ensures { Part self.now result.now message }
    {
        let range = self.ranges.get(message).copied().unwrap_or(NO_RANGE);
        &self.fields[range.first..range.end]
    }

    // Marks a message without a mark, and all that it leads to through messages that have none.
    // The bound is asked for: each call is of another message, so a struct of graph and message would be made anew at each.
    fn visit(&self, marks: &mut [bool; MESSAGES], message: usize)
        requires message_bound { message < messages }
        requires clear { get_or marks.old message false ≡ false }
        ensures { Visited (fields_of self.now) marks.old marks.new message }
    {
        marks[message] = true;
        let fields = self.fields_of(message);
        for field in fields {
            let target = place_of(field.target);
            if field.is_link_of(message) && !marks[target] {
                self.visit(marks, target);
            }
        }
    }

    /// Does the message outer lead to the message inner? A number that no message can have leads to itself alone. One mark for
    /// each message, all clear at the start.
    pub fn is_nested(&self, outer: usize, inner: usize) -> bool
        ensures { result ≡ leadsb (fields_of self.now) outer inner }
    {
        if outer >= MESSAGES || inner >= MESSAGES {
            return outer == inner;
        }
        let mut marks = [false; MESSAGES];
        self.visit(&mut marks, outer);
        marks[inner]
    }

    // Does the field's type lead back to its message?
    fn loops(&self, field: Field) -> bool
        ensures { result ≡ (may_loop field.kind field.label && leadsb (fields_of self.now) (message_of field.target) (message_of field.owner)) }
    {
        field.may_loop() && self.is_nested(place_of(field.target), place_of(field.owner))
    }

    /// Is the field with number `i` boxed by a loop?
    pub fn boxed_by_loop(&self, i: usize) -> bool
        ensures { result ≡ boxed_by_loop (fields_of self.now) i }
    {
        self.loops(field_at(self.fields, i))
    }

    /// For each place of `out`, whether the field there is boxed by a loop.
    #[tactic(auto, using(crate::specs::Tab::filled_none, crate::specs::Tab::filled_all))]
    pub fn boxes(&self, out: &mut [bool])
        ensures { out.new ≡ tab (length out.old) (boxed_by_loop (fields_of self.now)) }
    {
        for (i, boxed) in out.iter_mut().enumerate() {
            *boxed = self.boxed_by_loop(i);
        }
    }
}
