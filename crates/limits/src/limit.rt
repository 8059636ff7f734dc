//! Document 01's limits of a set.
ghost use Rattle.std.specs.Prelude.{◌≡◌};
ghost use Rattle.limits.specs.Answer.{passed_number};
ghost use Rattle.limits.specs.Weights.{most, limit_number};

pub const MAX_SET: usize = 32768;

pub const MAX_FILES: usize = 32;

pub const MAX_MESSAGES: usize = 256;

pub const MAX_FIELDS: usize = 2048;

pub const MAX_ENUMS: usize = 256;

pub const MAX_VALUES: usize = 256;

pub const MAX_NAME: usize = 64;

pub const MAX_FULL_NAME: usize = 255;

pub const MAX_DEFAULT: usize = 255;

/// A limit of the declarations of a set: 3 to 10 of document 01's list, in its order.
#[derive(Clone, Copy)]
pub enum Limit {
    Messages = 3,
    Fields = 4,
    Enums = 5,
    /// The values of an enum.
    Values = 6,
    /// Messages in messages.
    Nesting = 7,
    Names = 8,
    FullNames = 9,
    Defaults = 10,
}

/// All of them, the lowest first.
pub const LIMITS: [Limit; 8] = [
    Limit::Messages,
    Limit::Fields,
    Limit::Enums,
    Limit::Values,
    Limit::Nesting,
    Limit::Names,
    Limit::FullNames,
    Limit::Defaults,
];

impl Limit {
    /// Its number in document 01's list.
    // A cast: that number is the variant's own.
    #[tactic(auto, unfolding(crate::specs::Weights::limit_number))]
    pub fn number(self) -> usize
        ensures { result ≡ limit_number self }
    {
        self as usize
    }

    /// How many declarations may count for it; of one that each has to keep, none.
    #[tactic(auto, unfolding(crate::specs::Weights::most))]
    pub fn most(self) -> usize
        ensures { result ≡ most self }
    {
        match self {
            Limit::Messages => MAX_MESSAGES,
            Limit::Fields => MAX_FIELDS,
            Limit::Enums => MAX_ENUMS,
            _ => 0,
        }
    }
}

/// A limit that a set passes.
#[derive(Clone, Copy)]
pub enum Passed {
    /// Limit 1: its bytes.
    Bytes,
    /// Limit 2: its files.
    Files,
    /// Limits 3 to 10: its declarations.
    Declarations(Limit),
}

impl Passed {
    /// Its number in document 01's list.
    pub fn number(self) -> usize
        ensures { result ≡ passed_number self }
    {
        match self {
            Passed::Bytes => 1,
            Passed::Files => 2,
            Passed::Declarations(limit) => limit.number(),
        }
    }
}
