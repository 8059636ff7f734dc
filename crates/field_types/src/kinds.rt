//! A field's type and what the text needs of it.

ghost use Rattle.std.specs.Prelude.{◌≡◌};

/// A number that is no type of descriptor.proto.
#[derive(Clone, Copy, PartialEq, Eq)]
pub struct UnknownType;

/// A sort of types.
#[derive(Clone, Copy, PartialEq, Eq)]
pub enum Sort {
    Float,
    Integer,
    Boolean,
    Text,
    Group,
    Message,
    Bytes,
    Enumerated,
}

/// The letter that stands for a sort.
impl From<Sort> for u8 {
    ghost use Rattle.field_types.specs.Kinds.{letter};

    ghost from_gives = { λ sort n. n ≡ letter sort };

    fn from(sort: Sort) -> u8 {
        match sort {
            Sort::Float => b'f',
            Sort::Integer => b'i',
            Sort::Boolean => b'b',
            Sort::Text => b't',
            Sort::Group => b'g',
            Sort::Message => b'm',
            Sort::Bytes => b'y',
            Sort::Enumerated => b'e',
        }
    }
}

/// A field's type (descriptor.proto, `FieldDescriptorProto.Type`).
#[derive(Clone, Copy, PartialEq, Eq)]
pub enum Type {
    Double,
    Float,
    Int64,
    Uint64,
    Int32,
    Fixed64,
    Fixed32,
    Bool,
    String,
    Group,
    Message,
    Bytes,
    Uint32,
    Enum,
    Sfixed32,
    Sfixed64,
    Sint32,
    Sint64,
}

/// The type of a number in descriptor.proto.
impl TryFrom<u32> for Type {
    type Error = UnknownType;

    ghost use Rattle.std.specs.Prelude.{MatchResult};
    ghost use Rattle.field_types.specs.Types.{type_at, no_type};
    ghost use Rattle.field_types.specs.Kinds.{number};

    ghost try_from_gives = { λ n r. MatchResult r (λ t. number t ≡ n) (λ _. type_at n ≡ no_type) };

    #[tactic(auto, using(crate::proofs::TypeLaws::none_there))]
    fn try_from(n: u32) -> Result<Type, UnknownType> {
        Ok(match n {
            1 => Type::Double,
            2 => Type::Float,
            3 => Type::Int64,
            4 => Type::Uint64,
            5 => Type::Int32,
            6 => Type::Fixed64,
            7 => Type::Fixed32,
            8 => Type::Bool,
            9 => Type::String,
            10 => Type::Group,
            11 => Type::Message,
            12 => Type::Bytes,
            13 => Type::Uint32,
            14 => Type::Enum,
            15 => Type::Sfixed32,
            16 => Type::Sfixed64,
            17 => Type::Sint32,
            18 => Type::Sint64,
            _ => return Err(UnknownType),
        })
    }
}

impl Type {
    ghost use Rattle.field_types.specs.Types.{sort_of, tag_word, rust_word, can_pack};
    ghost use Rattle.field_types.specs.Kinds.{letter, number};

    #[tactic(auto, unfolding(crate::specs::Types::sort_of))]
    pub fn sort(self) -> Sort
        ensures { letter result ≡ sort_of (number self) }
    {
        match self {
            Type::Double | Type::Float => Sort::Float,
            Type::Int64 | Type::Uint64 | Type::Int32 | Type::Uint32 => Sort::Integer,
            Type::Fixed64 | Type::Fixed32 | Type::Sfixed64 | Type::Sfixed32 => Sort::Integer,
            Type::Sint64 | Type::Sint32 => Sort::Integer,
            Type::Bool => Sort::Boolean,
            Type::String => Sort::Text,
            Type::Group => Sort::Group,
            Type::Message => Sort::Message,
            Type::Bytes => Sort::Bytes,
            Type::Enum => Sort::Enumerated,
        }
    }

    /// Whether a repeated field of this type can be packed: numbers, bool and enum.
    #[tactic(auto, unfolding(crate::specs::Types::can_pack))]
    pub fn can_pack(self) -> bool
        ensures { result ≡ can_pack (number self) }
    {
        matches!(
            self.sort(),
            Sort::Float | Sort::Integer | Sort::Boolean | Sort::Enumerated
        )
    }

    /// The word of this type in a field's tag. An enum's tag has none: it names the enum.
    // This and `rust_word` are two tables, as their definitions are.
    #[tactic(auto, unfolding(crate::specs::Types::tag_word))]
    pub fn tag_word(self) -> &'static [u8]
        ensures { result.now ≡ tag_word (number self) }
    {
        match self {
            Type::Double => b"double",
            Type::Float => b"float",
            Type::Int64 => b"int64",
            Type::Uint64 => b"uint64",
            Type::Int32 => b"int32",
            Type::Fixed64 => b"fixed64",
            Type::Fixed32 => b"fixed32",
            Type::Bool => b"bool",
            Type::String => b"string",
            Type::Group => b"group",
            Type::Message => b"message",
            Type::Bytes => b"bytes",
            Type::Uint32 => b"uint32",
            Type::Enum => b"",
            Type::Sfixed32 => b"sfixed32",
            Type::Sfixed64 => b"sfixed64",
            Type::Sint32 => b"sint32",
            Type::Sint64 => b"sint64",
        }
    }

    /// The Rust type of this type where it is one word, and else nothing.
    #[tactic(auto, unfolding(crate::specs::Types::rust_word))]
    pub fn rust_word(self) -> &'static [u8]
        ensures { result.now ≡ rust_word (number self) }
    {
        match self {
            Type::Double => b"f64",
            Type::Float => b"f32",
            Type::Int64 | Type::Sfixed64 | Type::Sint64 => b"i64",
            Type::Uint64 | Type::Fixed64 => b"u64",
            Type::Int32 | Type::Enum | Type::Sfixed32 | Type::Sint32 => b"i32",
            Type::Uint32 | Type::Fixed32 => b"u32",
            Type::Bool => b"bool",
            Type::String | Type::Group | Type::Message | Type::Bytes => b"",
        }
    }
}
