//! build_enum_value_mappings: which values of an enum are kept, and the names of their variants.
#![tactic(auto)]

ghost use Rattle.std.specs.Prelude.{◌≡◌, ◌<◌, ◌≤◌, ◌^◌, length};
ghost use Rattle.std.specs.Iterator.{item_count, YieldsFirst};
ghost use Rattle.writer.specs.Writing.{◌▻◌};
ghost use Rattle.options.specs.Settings.{strips_prefix};
ghost use Rattle.descriptor.specs.Accessors.{text};
ghost use Rattle.code_generator.specs.Piece.{spelt, variant};
ghost use Rattle.code_generator.specs.Enums.{value_number, is_used};
ghost use Rattle.enum_values.specs.Kept.{numbers_before, no_values, note, noted, values_in, marked_in};

use descriptor::EnumValueDescriptor;
use descriptor::field_number::ENUM_VALUE;
use limits::limit::MAX_VALUES;
use options::Options;
use parts::Parts;
use std::iter::Enumerate;
use std::marker::Model;
use writer::Text;

/// Which values of an enum are kept: how many were met, up to limit 6, their numbers, and a mark for each whose number none before it has. The marks
/// are an array of their own, since an `Enumeration` is lent them.
#[derive(Clone, Copy)]
pub struct Kept {
    pub count: usize,
    pub numbers: [u32; MAX_VALUES],
    pub marks: [bool; MAX_VALUES],
}

impl Kept {
    fn none() -> Kept
        ensures { result ≡ no_values }
    {
        Kept {
            count: 0,
            numbers: [0; MAX_VALUES],
            marks: [false; MAX_VALUES],
        }
    }

    fn is_used(&self, number: u32) -> bool
        requires { self.now.count < 256 }
        ensures { result ≡ is_used number (numbers_before self.now.numbers self.now.count) }
    {
        self.numbers[..self.count].contains(&number)
    }

    /// One value more. Those past limit 6 are not kept.
    #[tactic(auto, unfolding(crate::specs::Kept::note, base::specs::Choose::choose))]
    fn add(&mut self, number: u32)
        ensures { self.new ≡ note number self.old }
    {
        let count = self.count;
        if count < MAX_VALUES {
            self.marks[count] = !self.is_used(number);
            self.numbers[count] = number;
            self.count = count + 1;
        }
    }
}

/// The number of an enum's value; none reads as 0.
pub fn value_number(value: &EnumValueDescriptor<'_>) -> u32
    ensures { result ≡ value_number value.now }
{
    value.number.unwrap_or_default()
}

/// The name of an enum's value; none reads as no bytes.
pub fn value_name<'a>(value: &EnumValueDescriptor<'a>) -> &'a [u8]
    ensures { result.now ≡ text value.now.name }
{
    value.name.unwrap_or_default()
}

/// build_enum_value_mappings: which values of an enum's part are kept.
#[tactic(auto, unfolding(crate::specs::Kept::noted))]
pub fn build_enum_value_mappings(part: &[u8]) -> Kept
    ensures { result ≡ noted no_values (values_in part.now) }
{
    let mut kept = Kept::none();
    for value in Parts::new(part, ENUM_VALUE) {
        kept.add(value_number(&EnumValueDescriptor::new(value)));
    }
    kept
}

/// The values of an enum that have a mark and are left.
#[derive(Drop)]
pub struct Values<'a> {
    parts: Enumerate<Parts<'a>>,
    marks: &'a [bool],
}

impl<'a> Model for Values<'a> {
    ghost use Rattle.std.specs.Prelude.{List, map, ◌+◌, ◌<◌, ◌^◌, length};
    ghost use Rattle.std.specs.Iterator.Adapters.{enumerate_source, enumerate_count};
    ghost use Rattle.descriptor.specs.Descriptor.{ValueDescriptor};
    ghost use Rattle.descriptor.specs.Decode.{decode_value};
    ghost use Rattle.enum_values.specs.Kept.{marked};

    ghost Value = { List ValueDescriptor };

    ghost view = { λ v. marked v.marks.now (enumerate_count v.parts) (map decode_value (enumerate_source v.parts)) };

    ghost invariant = { λ v. enumerate_count v.parts + length (enumerate_source v.parts) < 2 ^ 64 };
}

impl<'a> Values<'a> {
    /// Those of an enum's part; the first value's mark is the first.
    #[tactic(auto, using(crate::proofs::KeptLaws::few_marked))]
    pub fn new(part: &'a [u8], marks: &'a [bool]) -> Self
        ensures values { result ≡ marked_in marks.now part.now }
        ensures bound { length result ≤ length marks.now }
    {
        Values {
            parts: Parts::new(part, ENUM_VALUE).enumerate(),
            marks,
        }
    }
}

impl<'a> Iterator for Values<'a> {
    type Item = EnumValueDescriptor<'a>;

    ghost next_gives = { YieldsFirst (λ rest. rest) };

    ghost remaining = { item_count (λ rest. rest) };

    fn next(&mut self) -> Option<EnumValueDescriptor<'a>> {
        let (_, part) = self
            .parts
            .find(|(index, _)| self.marks.get(*index) == Some(&true))?;
        Some(EnumValueDescriptor::new(part))
    }
}

/// An enum that is written: its full name, its own, and its values that have a mark.
#[derive(Drop)]
pub struct Enumeration<'a> {
    full: &'a [u8],
    name: &'a [u8],
    part: &'a [u8],
    marks: &'a [bool],
}

impl<'a> Model for Enumeration<'a> {
    ghost use Rattle.std.specs.Prelude.{◌<◌, ◌^◌, length};
    ghost use Rattle.enum_values.specs.Enumeration.{Enumeration};
    ghost use Rattle.enum_values.specs.Kept.{marked_in};

    ghost Value = { Enumeration };

    ghost view = { λ e. record { full = e.full.now; name = e.name.now; values = marked_in e.marks.now e.part.now } };

    ghost invariant = { λ e. length e.marks.now < 2 ^ 63 };
}

impl<'a> Enumeration<'a> {
    /// The enum whose bytes are `part`.
    pub fn new(full: &'a [u8], name: &'a [u8], part: &'a [u8], marks: &'a [bool]) -> Self
        ensures { result ≡ record { full = full.now; name = name.now; values = marked_in marks.now part.now } }
    {
        Enumeration {
            full,
            name,
            part,
            marks,
        }
    }

    /// The full name.
    pub fn full(&self) -> &'a [u8]
        ensures { result.now ≡ self.now.full }
    {
        self.full
    }

    /// Its own name.
    pub fn name(&self) -> &'a [u8]
        ensures { result.now ≡ self.now.name }
    {
        self.name
    }

    /// The values that have a mark.
    pub fn values(&self) -> Values<'a>
        ensures values { result ≡ self.now.values }
        ensures bound { length result < 2 ^ 63 }
    {
        Values::new(self.part, self.marks)
    }
}

/// The variant's name of a value with this name, in an enum of the name `enumeration`.
pub fn put_variant_name(text: &mut Text<'_>, options: &Options<'_>, enumeration: &[u8], name: &[u8])
    ensures { text.new ≡ text.old ▻ spelt (variant (strips_prefix options.now) enumeration.now name.now) }
{
    if options.strips_enum_prefix() {
        ident::text::put_variant(text, enumeration, name);
    } else {
        ident::text::put_upper_camel(text, name);
    }
}
