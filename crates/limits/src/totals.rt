//! What one walk over a set adds up.
ghost use Rattle.std.specs.Prelude.{◌≡◌, ◌≤◌, IfSome};

use crate::limit::{Limit, MAX_ENUMS, MAX_FIELDS, MAX_FULL_NAME, MAX_MESSAGES};
use crate::sort::Sort;

/// What the declarations that a message holds count for the limits of messages, fields and enums. None of them passes
/// another limit.
#[derive(Clone, Copy)]
pub struct Totals {
    messages: usize,
    fields: usize,
    enums: usize,
    /// How much they add to the length of the full name around them.
    longest: usize,
    /// The length of the message's own name.
    name: usize,
    ghost few_messages: { messages ≤ 256 },
    ghost few_fields: { fields ≤ 2048 },
    ghost few_enums: { enums ≤ 256 },
    ghost short: { longest ≤ 255 },
}

impl Totals {
    ghost use Rattle.limits.specs.Fits.{no_totals, with_name, Joined};

    /// Of no declaration.
    pub fn none() -> Totals
        ensures { result ≡ no_totals }
    {
        Totals {
            messages: 0,
            fields: 0,
            enums: 0,
            longest: 0,
            name: 0,
        }
    }

    /// The length of the message's own name.
    pub fn name(self) -> usize
        ensures { result ≡ self.name }
    {
        self.name
    }

    /// Of a message whose own name has a length.
    pub fn with_name(self, name: usize) -> Totals
        ensures { result ≡ with_name self name }
    {
        // each field by itself: `..self` is refused where a struct has ghost fields
        Totals {
            messages: self.messages,
            fields: self.fields,
            enums: self.enums,
            longest: self.longest,
            name,
        }
    }

    /// With one more declaration, which adds so much to the full name around it, and what it holds; none where a limit
    /// is passed.
    #[tactic(auto, using(crate::proofs::FitLaws::joined_is))]
    pub(crate) fn joined(self, sort: Sort, added: usize, inner: Totals) -> Option<Totals>
        requires { added ≤ 256 }
        ensures { IfSome result (Joined self sort added inner) }
    {
        let messages = self.messages + sort.count(Limit::Messages) + inner.messages;
        let fields = self.fields + sort.count(Limit::Fields) + inner.fields;
        let enums = self.enums + sort.count(Limit::Enums) + inner.enums;
        let longest = self.longest.max(added + inner.longest);
        if messages > MAX_MESSAGES
            || fields > MAX_FIELDS
            || enums > MAX_ENUMS
            || longest > MAX_FULL_NAME
        {
            return None;
        }
        Some(Totals {
            messages,
            fields,
            enums,
            longest,
            name: self.name,
        })
    }
}
