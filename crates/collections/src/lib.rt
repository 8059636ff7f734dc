//! collections.rs: which collection type a map field and a bytes field have.
#![tactic(auto)]

ghost use Rattle.std.specs.Prelude.{◌≡◌};
ghost use Rattle.collections.specs.Collections.{map_type, map_annotation, bytes_type, bytes_annotation};

/// The map type of a map field.
#[derive(Clone, Copy, PartialEq, Eq)]
pub enum MapType {
    HashMap,
    BTreeMap,
}

// Each type has its own two words, as in collections.rs: a trait over both types would add a declaration and leave both matches. Nor
// is there one function for `map_type` and `bytes_type`: each gives a type of its own.
impl MapType {
    /// The word for the map type in a field's tag.
    pub fn annotation(self) -> &'static [u8]
        ensures { result.now ≡ map_annotation self }
    {
        match self {
            MapType::HashMap => b"map",
            MapType::BTreeMap => b"btree_map",
        }
    }
}

/// The bytes type of a bytes field.
#[derive(Clone, Copy, PartialEq, Eq)]
pub enum BytesType {
    Vec,
    Bytes,
}

impl BytesType {
    /// The word for the bytes type in a field's tag.
    pub fn annotation(self) -> &'static [u8]
        ensures { result.now ≡ bytes_annotation self }
    {
        match self {
            BytesType::Vec => b"vec",
            BytesType::Bytes => b"bytes",
        }
    }
}

/// The map type of a field, where `btree` says that a setting asks for a BTreeMap.
pub fn map_type(btree: bool) -> MapType
    ensures { result ≡ map_type btree }
{
    if btree {
        MapType::BTreeMap
    } else {
        MapType::HashMap
    }
}

/// The bytes type of a field, where `asbytes` says that a setting asks for Bytes.
pub fn bytes_type(asbytes: bool) -> BytesType
    ensures { result ≡ bytes_type asbytes }
{
    if asbytes {
        BytesType::Bytes
    } else {
        BytesType::Vec
    }
}
