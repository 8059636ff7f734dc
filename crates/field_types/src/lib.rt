//! What the text needs of a field's type.
#![tactic(auto)]

ghost use Rattle.std.specs.Prelude.{◌≡◌};
ghost use Rattle.field_types.specs.Kinds.{letter_of};
ghost use Rattle.field_types.specs.Types.{sort_of, tag_word, rust_word, can_pack};

mod kinds;

pub use kinds::{Sort, Type, UnknownType};

// The same by the type's number in descriptor.proto, for the crates that hold a number.

/// The sort of the type `k`, and none where that is no type.
#[tactic(auto, unfolding(crate::specs::Types::sort_of))]
pub fn sort_of(k: u32) -> Option<Sort>
    ensures { letter_of result ≡ sort_of k }
{
    Type::try_from(k).ok().map(|kind| kind.sort())
}

/// Whether a repeated field of the type `k` can be packed.
#[tactic(auto, unfolding(crate::specs::Types::can_pack, crate::specs::Types::sort_of))]
pub fn can_pack(k: u32) -> bool
    ensures { result ≡ can_pack k }
{
    Type::try_from(k).is_ok_and(|kind| kind.can_pack())
}

/// The word of the tag of the type `k`, and nothing where that is no type.
// One chain of std's functions, like those around it: a function over all would take what no type has and a closure, and say no less.
#[tactic(auto, unfolding(crate::specs::Types::tag_word))]
pub fn tag_word(k: u32) -> &'static [u8]
    ensures { result.now ≡ tag_word k }
{
    Type::try_from(k).map_or(b"", |kind| kind.tag_word())
}

/// The Rust type of the type `k` where it is one word, and nothing where it is none or that is no type.
#[tactic(auto, unfolding(crate::specs::Types::rust_word))]
pub fn rust_word(k: u32) -> &'static [u8]
    ensures { result.now ≡ rust_word k }
{
    Type::try_from(k).map_or(b"", |kind| kind.rust_word())
}
