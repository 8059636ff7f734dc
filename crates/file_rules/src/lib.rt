//! Refusal 6, as far as declarations are judged one by one: enums and messages, without the messages nested in them.
#![tactic(auto)]

ghost use Rattle.std.specs.Prelude.{◌≡◌};
ghost use Rattle.descriptor.specs.Decode.{entries, parts};
ghost use Rattle.base.specs.Lists.{all};
ghost use Rattle.file_rules.specs.Walks.{field_part_good, value_part_good, oneof_part_good, enum_part_good, message_part_good};

use descriptor::field_number::{ENUM_VALUE, MESSAGE_ENUM_TYPE, MESSAGE_FIELD, MESSAGE_ONEOF_DECL};
use descriptor::name_of;
use name_rules::rules::has_name;
use parts::Parts;

/// The fields of a message with so many oneofs.
#[tactic(auto, unfolding(base::specs::Lists::all))]
fn fields_good(s: &[u8], oneofs: usize) -> bool
    ensures { result ≡ all (field_part_good oneofs) (parts 2 (entries s.now)) }
{
    Parts::new(s, MESSAGE_FIELD).all(|field| name_rules::field_good(field, oneofs))
}

/// The values of an enum.
#[tactic(auto, unfolding(base::specs::Lists::all))]
fn values_good(s: &[u8]) -> bool
    ensures { result ≡ all value_part_good (parts 2 (entries s.now)) }
{
    Parts::new(s, ENUM_VALUE).all(name_rules::value_good)
}

/// The oneofs of a message.
#[tactic(auto, unfolding(base::specs::Lists::all))]
fn oneofs_good(s: &[u8]) -> bool
    ensures { result ≡ all oneof_part_good (parts 8 (entries s.now)) }
{
    Parts::new(s, MESSAGE_ONEOF_DECL).all(name_rules::oneof_good)
}

/// An enum's own name and its values.
#[tactic(auto, using(crate::proofs::DeclarationLaws::enum_is))]
pub fn enum_good(s: &[u8]) -> bool
    ensures { result ≡ enum_part_good s.now }
{
    has_name(name_of(s)) && values_good(s)
}

/// The enums of a message (`MESSAGE_ENUM_TYPE`) or of a file (`FILE_ENUM_TYPE`).
#[tactic(auto, unfolding(base::specs::Lists::all))]
pub fn enums_good(s: &[u8], number: u64) -> bool
    ensures { result ≡ all enum_part_good (parts number (entries s.now)) }
{
    Parts::new(s, number).all(enum_good)
}

/// A message's own name, fields, enums and oneofs.
#[tactic(auto, using(crate::proofs::DeclarationLaws::message_is))]
pub fn message_good(s: &[u8]) -> bool
    ensures { result ≡ message_part_good s.now }
{
    let oneofs = parts::count_parts(s, MESSAGE_ONEOF_DECL);
    has_name(name_of(s))
        && fields_good(s, oneofs)
        && enums_good(s, MESSAGE_ENUM_TYPE)
        && oneofs_good(s)
}
