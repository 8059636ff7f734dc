//! What counts for the limits of a set.
ghost use Rattle.std.specs.Prelude.{◌≡◌, ◌+◌, ◌≤◌, false, length, ltb, IfSome};
ghost use Rattle.descriptor.specs.Decode.{entries, parts};
ghost use Rattle.limits.specs.Fits.{one_of, Adds};
ghost use Rattle.limits.specs.Weights.{text_length, long_segment, sort_below, message_below, counts, long_name, long_full_name, holds_none, around_below};

use crate::limit::{Limit, MAX_DEFAULT, MAX_FULL_NAME, MAX_NAME, MAX_VALUES};
use crate::strings::{long_segment, text};
use descriptor::field_number::*;

/// A set and its declarations.
#[derive(Clone, Copy)]
pub enum Sort {
    Set,
    File,
    Message,
    /// A message that is nested too deep to be read.
    DeepMessage,
    Field,
    Oneof,
    Enum,
    Value,
}

/// A message, by the levels left in the bytes that hold it.
#[tactic(auto, unfolding(crate::specs::Weights::message_below, base::specs::Choose::choose))]
fn message_below(left: usize) -> Sort
    ensures { result ≡ message_below left }
{
    if left < 3 {
        Sort::DeepMessage
    } else {
        Sort::Message
    }
}

impl Sort {
    /// What a field of its bytes declares, with so many levels left in them.
    #[tactic(auto, unfolding(crate::specs::Weights::sort_below, base::specs::Choose::choose))]
    pub fn below(self, left: usize, number: u64) -> Option<Sort>
        ensures { result ≡ sort_below self left number }
    {
        match (self, number) {
            (Sort::Set, SET_FILE) => Some(Sort::File),
            (Sort::File, FILE_MESSAGE_TYPE) => Some(message_below(left)),
            (Sort::File, FILE_ENUM_TYPE) => Some(Sort::Enum),
            (Sort::Message, MESSAGE_FIELD) => Some(Sort::Field),
            (Sort::Message, MESSAGE_NESTED_TYPE) => Some(message_below(left)),
            (Sort::Message, MESSAGE_ENUM_TYPE) => Some(Sort::Enum),
            (Sort::Message, MESSAGE_ONEOF_DECL) => Some(Sort::Oneof),
            (Sort::Enum, ENUM_VALUE) => Some(Sort::Value),
            _ => None,
        }
    }

    /// Can it hold no declaration?
    #[tactic(auto, unfolding(crate::specs::Weights::holds_none))]
    pub fn holds_none(self) -> bool
        ensures { result ≡ holds_none self }
    {
        matches!(
            self,
            Sort::DeepMessage | Sort::Field | Sort::Oneof | Sort::Value
        )
    }

    /// Does it count for a limit? Around it stands a full name of a length.
    #[tactic(auto, unfolding(crate::specs::Weights::counts))]
    pub(crate) fn counts(self, limit: Limit, around: usize, part: &[u8]) -> bool
        requires { (length part.now ≤ 32768) × (around ≤ 655380) }
        ensures { result ≡ counts limit self around part.now }
    {
        match (limit, self) {
            (Limit::Messages, Sort::Message)
            | (Limit::Fields, Sort::Field)
            | (Limit::Enums, Sort::Enum)
            | (Limit::Nesting, Sort::DeepMessage) => true,
            (Limit::Values, Sort::Enum) => parts::count_parts(part, ENUM_VALUE) > MAX_VALUES,
            (Limit::Names, _) => self.long_name(part),
            (Limit::FullNames, _) => self.long_full_name(around, part),
            (Limit::Defaults, Sort::Field) => text(part, FIELD_DEFAULT_VALUE).len() > MAX_DEFAULT,
            _ => false,
        }
    }

    /// Is its own name, or a segment of its package, too long?
    #[tactic(auto, unfolding(crate::specs::Weights::long_name))]
    fn long_name(self, part: &[u8]) -> bool
        ensures { result ≡ long_name self part.now }
    {
        match self {
            Sort::File => long_segment(text(part, FILE_PACKAGE)),
            Sort::DeepMessage => false,
            _ => text(part, NAME).len() > MAX_NAME,
        }
    }

    /// Is its full name too long, with a full name of a length around it?
    #[tactic(auto, unfolding(crate::specs::Weights::long_full_name))]
    fn long_full_name(self, around: usize, part: &[u8]) -> bool
        requires { (length part.now ≤ 32768) × (around ≤ 655380) }
        ensures { result ≡ long_full_name self around part.now }
    {
        match self {
            Sort::Message | Sort::Enum => around + 1 + text(part, NAME).len() > MAX_FULL_NAME,
            _ => false,
        }
    }

    /// The length of the full name around what it holds.
    #[tactic(auto, unfolding(crate::specs::Weights::around_below, base::specs::Choose::choose))]
    pub(crate) fn around_below(self, around: usize, part: &[u8]) -> usize
        requires { (length part.now ≤ 32768) × (around ≤ 655380) }
        ensures length { result ≡ around_below self around part.now }
        ensures bound { result ≤ around + 1 + length part.now }
    {
        match self {
            Sort::File => {
                let len = text(part, FILE_PACKAGE).len();
                if len == 0 { 0 } else { len + 1 }
            }
            Sort::Message => around + 1 + text(part, NAME).len(),
            _ => 0,
        }
    }

    /// What it counts by itself for the limits of messages, fields and enums.
    // `counts` lists these three once more. Tried, one arm that calls this: its proof did not close (in an arm of three
    // limits the check doesn't know that it is one of them).
    #[tactic(auto, unfolding(base::specs::Choose::choose))]
    #[inline]
    pub fn count(self, limit: Limit) -> usize
        ensures count { result ≡ one_of self limit }
        ensures bound { result ≤ 1 }
    {
        match (limit, self) {
            (Limit::Messages, Sort::Message)
            | (Limit::Fields, Sort::Field)
            | (Limit::Enums, Sort::Enum) => 1,
            _ => 0,
        }
    }

    /// How much it adds to the full name around it, for what it holds, where its own name has a length; none where it
    /// passes a limit.
    #[tactic(auto, using(crate::proofs::FitLaws::adds))]
    pub fn added_length(self, part: &[u8], name: usize) -> Option<usize>
        ensures bound { IfSome result (λ added. added ≤ 256) }
        ensures adds { (holds_none self ≡ false → name ≡ text_length 1 part.now) → IfSome result (Adds self part.now) }
    {
        match self {
            Sort::Set | Sort::DeepMessage => None,
            Sort::File => package_added(text(part, FILE_PACKAGE)),
            Sort::Message => name_added(name),
            Sort::Enum if has_more_parts(part, ENUM_VALUE, MAX_VALUES) => None,
            Sort::Enum => name_added(name),
            Sort::Field if has_longer_text(part, FIELD_DEFAULT_VALUE, MAX_DEFAULT) => None,
            Sort::Field | Sort::Oneof | Sort::Value => {
                if has_longer_text(part, NAME, MAX_NAME) {
                    None
                } else {
                    Some(0)
                }
            }
        }
    }
}

/// A name and a dot, added to a full name.
fn name_added(name: usize) -> Option<usize>
    ensures { IfSome result (λ added. (name ≤ 64) × (added ≡ name + 1)) }
{
    if name > MAX_NAME {
        None
    } else {
        Some(name + 1)
    }
}

/// A package and a dot.
fn package_added(name: &[u8]) -> Option<usize>
    ensures { IfSome result (λ added. (added ≤ 256) × (long_segment name.now ≡ false) × (added ≡ length name.now + 1)) }
{
    if name.len() > MAX_FULL_NAME || long_segment(name) {
        None
    } else {
        Some(name.len() + 1)
    }
}

/// Is a string longer than so many bytes? It is no longer than all bytes.
#[tactic(auto, using(crate::proofs::FitLaws::text_small))]
fn has_longer_text(part: &[u8], number: u64, most: usize) -> bool
    ensures { result ≡ ltb most (text_length number part.now) }
{
    part.len() > most && text(part, number).len() > most
}

/// Are there more embedded messages than so many? There are no more of them than bytes.
#[tactic(auto, using(parts::proofs::Fields::parts_bound))]
fn has_more_parts(part: &[u8], number: u64, most: usize) -> bool
    ensures { result ≡ ltb most (length (parts number (entries part.now))) }
{
    part.len() > most && parts::count_parts(part, number) > most
}
