//! The kinds of rows of an options file.
ghost use Rattle.std.specs.Prelude.{◌≡◌};
ghost use Rattle.options.specs.Kinds.{has_path, has_value, stands_once};
ghost use Rattle.options.specs.Kind.{kind_number, kind_of};

/// What a row sets, named as in prost-build's `Config`; the number is the row's.
#[derive(Clone, Copy, Debug, PartialEq, Eq)]
pub enum Kind {
    /// `extern_path`
    ExternPath = 1,
    /// `bytes`: fields and maps' values that are `Bytes`
    Bytes = 2,
    /// `btree_map`
    BtreeMap = 3,
    /// `boxed`
    Boxed = 4,
    /// `type_attribute`
    TypeAttribute = 5,
    /// `field_attribute`
    FieldAttribute = 6,
    /// `message_attribute`
    MessageAttribute = 7,
    /// `enum_attribute`
    EnumAttribute = 8,
    /// `skip_debug`
    SkipDebug = 9,
    /// `prost_path`
    ProstPath = 10,
    /// `retain_enum_prefix`
    RetainEnumPrefix = 11,
    /// The paths of prost types are extern paths; the value is where they stand in Rust.
    ProstTypes = 12,
}

/// A number that is no kind.
#[derive(Clone, Copy, Debug, PartialEq, Eq)]
pub struct UnknownKind;

impl TryFrom<u16> for Kind {
    type Error = UnknownKind;

    ghost try_from_gives = { λ number r. r ≡ kind_of number };

    #[tactic(auto, unfolding(crate::specs::Kind::kind_of))]
    fn try_from(number: u16) -> Result<Kind, UnknownKind> {
        match number {
            1 => Ok(Kind::ExternPath),
            2 => Ok(Kind::Bytes),
            3 => Ok(Kind::BtreeMap),
            4 => Ok(Kind::Boxed),
            5 => Ok(Kind::TypeAttribute),
            6 => Ok(Kind::FieldAttribute),
            7 => Ok(Kind::MessageAttribute),
            8 => Ok(Kind::EnumAttribute),
            9 => Ok(Kind::SkipDebug),
            10 => Ok(Kind::ProstPath),
            11 => Ok(Kind::RetainEnumPrefix),
            12 => Ok(Kind::ProstTypes),
            _ => Err(UnknownKind),
        }
    }
}

impl Kind {
    /// The number of its rows.
    // A cast: that number is the variant's own.
    pub fn number(self) -> u16
        ensures { result ≡ kind_number self }
    {
        self as u16
    }

    /// Do its rows have a path?
    #[tactic(auto, unfolding(crate::specs::Kinds::has_path, crate::specs::Kinds::sort_of))]
    pub fn has_path(self) -> bool
        ensures { result ≡ has_path (kind_number self) }
    {
        !matches!(
            self,
            Kind::ProstPath | Kind::RetainEnumPrefix | Kind::ProstTypes
        )
    }

    /// Do its rows have a value?
    #[tactic(auto, unfolding(crate::specs::Kinds::has_value, crate::specs::Kinds::sort_of))]
    pub fn has_value(self) -> bool
        ensures { result ≡ has_value (kind_number self) }
    {
        // no `!matches!`: with it the proof did not close
        match self {
            Kind::Bytes | Kind::BtreeMap | Kind::Boxed | Kind::SkipDebug | Kind::RetainEnumPrefix =>
                false,
            Kind::ExternPath
            | Kind::TypeAttribute
            | Kind::FieldAttribute
            | Kind::MessageAttribute
            | Kind::EnumAttribute => true,
            Kind::ProstPath | Kind::ProstTypes => true,
        }
    }

    /// May it have one row only?
    #[tactic(auto, unfolding(crate::specs::Kinds::stands_once, crate::specs::Kinds::sort_of))]
    pub fn stands_once(self) -> bool
        ensures { result ≡ stands_once (kind_number self) }
    {
        matches!(self, Kind::ProstPath | Kind::ProstTypes)
    }
}
