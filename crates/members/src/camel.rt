//! The camel names of the types nested in a message, which the name of a oneof's type may meet.
ghost use Rattle.std.specs.Prelude.{◌≡◌, ◌&&◌, ◌||◌};
ghost use Rattle.base.specs.Bytes.{same};
ghost use Rattle.base.specs.Lists.{any};
ghost use Rattle.checksums.specs.Sums.{sum_of};
ghost use Rattle.checksums.specs.Lists.{all_pushed};
ghost use Rattle.descriptor.specs.Descriptor.{Bytes};
ghost use Rattle.descriptor.specs.Decode.{entries, parts};
ghost use Rattle.members.specs.Members.{name_in, cut_camel, conflict, part_sums, camel_sums};

use checksums::Sums;
use descriptor::field_number::{MESSAGE_ENUM_TYPE, MESSAGE_NESTED_TYPE};
use joined::{MAX_PATH, Name};
use parts::Parts;
use std::marker::Model;

/// More than the messages and enums that a message can hold (limits 3 and 5).
pub const NAMES: usize = 512;

// A name in upper camel case, cut where it has over `MAX_PATH` bytes. As package_names' `snake_name` but for the spelling, with the reason
// there.
fn camel_name(name: &[u8]) -> Name
    ensures { result ≡ cut_camel name.now }
{
    let mut bytes = [0u8; MAX_PATH];
    let length = ident::text::fill_upper_camel(&mut bytes, name);
    Name::cut(bytes, length)
}

// Is it the camel name of the declaration whose bytes `part` is?
#[tactic(auto, unfolding(base::specs::Bytes::same))]
fn meets_part(camel: &[u8], part: &[u8]) -> bool
    ensures { result ≡ same (cut_camel (name_in part.now)) camel.now }
{
    let own = camel_name(joined::name_of(part));
    own.as_bytes() == camel
}

// Is it that of a declaration with the field number in the message?
#[tactic(auto, unfolding(base::specs::Lists::any))]
fn meets(part: &[u8], number: u64, camel: &[u8]) -> bool
    ensures { result ≡ any (λ (q : Bytes). same (cut_camel (name_in q)) camel.now) (parts number (entries part.now)) }
{
    Parts::new(part, number).any(|own| meets_part(camel, own))
}

// Is it that of a nested type?
fn conflicts(part: &[u8], nested: bool, camel: &[u8]) -> bool
    ensures { result ≡ ((nested && any (λ (q : Bytes). same (cut_camel (name_in q)) camel.now) (parts 3 (entries part.now))) || any (λ (q : Bytes). same (cut_camel (name_in q)) camel.now) (parts 4 (entries part.now))) }
{
    (nested && meets(part, MESSAGE_NESTED_TYPE, camel)) || meets(part, MESSAGE_ENUM_TYPE, camel)
}

// `has_type_name_conflict`, without checksums.
#[tactic(auto, unfolding(crate::specs::Members::conflict, crate::specs::Members::meets_part))]
fn conflict(part: &[u8], nested: bool, name: &[u8]) -> bool
    ensures { result ≡ conflict nested part.now name.now }
{
    let camel = camel_name(name);
    conflicts(part, nested, camel.as_bytes())
}

// The checksum of a camel name.
fn camel_sum(name: &[u8]) -> u64
    ensures { result ≡ sum_of (cut_camel name.now) }
{
    let camel = camel_name(name);
    checksums::checksum(camel.as_bytes())
}

// Puts those of the declarations with the field number in the message behind those that are there.
fn put_sums(sums: &mut Sums<NAMES>, part: &[u8], number: u64)
    ensures { sums.new ≡ all_pushed 512 sums.old (part_sums number part.now) }
{
    for own in Parts::new(part, number) {
        let sum = camel_sum(joined::name_of(own));
        sums.push(sum);
    }
}

// Puts those of all names that a oneof's can meet.
fn put_camel_sums(sums: &mut Sums<NAMES>, nested: bool, part: &[u8])
    ensures { sums.new ≡ all_pushed 512 sums.old (camel_sums nested part.now) }
{
    if nested {
        put_sums(sums, part, MESSAGE_NESTED_TYPE);
    }
    put_sums(sums, part, MESSAGE_ENUM_TYPE);
}

/// The checksums of the camel names of a message's nested types. A clause sees it as whether nested
/// messages are read, and the bytes of the message.
#[derive(Drop)]
pub struct CamelSums<'a> {
    part: &'a [u8],
    nested: bool,
    sums: Sums<NAMES>,
}

impl<'a> Model for CamelSums<'a> {
    ghost use Rattle.std.specs.Prelude.{◌≡◌, Bool, [], Some};
    ghost use Rattle.checksums.specs.Lists.{all_pushed};
    ghost use Rattle.descriptor.specs.Descriptor.{Bytes};
    ghost use Rattle.members.specs.Members.{camel_sums};

    ghost Value = { Bool × Bytes };

    ghost view = { λ c. (c.nested, c.part.now) };

    ghost invariant = { λ c. c.sums ≡ all_pushed 512 (Some []) (camel_sums c.nested c.part.now) };
}

impl<'a> CamelSums<'a> {
    /// Of the enums of the message whose bytes `part` is, and if `nested` holds of its messages.
    pub fn of(part: &'a [u8], nested: bool) -> Self
        ensures { result ≡ (nested, part.now) }
    {
        let mut sums = Sums::new();
        put_camel_sums(&mut sums, nested, part);
        CamelSums { part, nested, sums }
    }

    /// `has_type_name_conflict`: is the camel name of a oneof that of a nested type? One whose checksum is none of theirs meets
    /// no name.
    pub fn meets(&self, name: &[u8]) -> bool
        ensures { result ≡ conflict self.now.0 self.now.1 name.now }
    {
        self.sums.may_hold(camel_sum(name)) && conflict(self.part, self.nested, name)
    }
}
