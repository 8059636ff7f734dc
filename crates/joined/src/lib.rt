//! A full name with a name behind it, such as `.a.b.M` and `f`.
#![tactic(auto)]

ghost use Rattle.std.specs.Prelude.{◌≡◌, leb, take, [], Some, None};
ghost use Rattle.base.specs.Choose.{choose};
ghost use Rattle.writer.specs.Draft.{Filled};
ghost use Rattle.writer.specs.Writing.{◌▻◌};
ghost use Rattle.descriptor.specs.Decode.{decode_oneof, decode_file};
ghost use Rattle.name_rules.specs.Accessors.{text};
ghost use Rattle.name_rules.specs.FullNames.{◌·◌, package_scope};
ghost use Rattle.joined.specs.Joined.{fits, max_path, ◌⊙◌};

use descriptor::FileHeader;
use std::marker::Model;
use writer::Text;

/// The length of a buffer that holds the longest path of a set within the limits.
pub const MAX_PATH: usize = 512;

/// A name of at most `MAX_PATH` bytes: a full name such as `.a.b.M`, a name in camel case, or a variant's.
#[derive(Drop)]
pub struct Name {
    bytes: [u8; MAX_PATH],
    length: usize,
}

impl Model for Name {
    ghost use Rattle.std.specs.Prelude.{◌≤◌, take};
    ghost use Rattle.descriptor.specs.Descriptor.{Bytes};
    ghost use Rattle.joined.specs.Joined.{max_path};

    ghost Value = { Bytes };

    ghost view = { λ n. take n.length n.bytes };

    ghost invariant = { λ n. n.length ≤ max_path };
}

// A scope, a dot and a name.
fn put_path(text: &mut Text<'_>, scope: &[u8], name: &[u8])
    ensures { text.new ≡ text.old ▻ (scope.now · name.now) }
{
    text.put(scope);
    text.put_byte(b'.');
    text.put(name);
}

// The path of a name in a scope, as far as the buffer goes, and its length.
// A text is begun, written and measured: over a closure that is no shorter.
fn fill_path(buffer: &mut [u8], scope: &[u8], name: &[u8]) -> usize
    ensures { Filled buffer.old (scope.now · name.now) buffer.new result }
{
    let mut text = Text::new(buffer);
    put_path(&mut text, scope, name);
    text.length
}

impl Name {
    /// The first `length` bytes of an array, or all.
    #[inline]
    pub fn cut(bytes: [u8; MAX_PATH], length: usize) -> Name
        ensures { result ≡ take length bytes }
    {
        Name {
            bytes,
            length: length.min(MAX_PATH),
        }
    }

    /// The first `length` bytes of an array that has so many; else none.
    #[inline]
    pub fn fitting(bytes: [u8; MAX_PATH], length: usize) -> Option<Name>
        ensures { result ≡ choose (leb length max_path) (Some (take length bytes)) None }
    {
        if MAX_PATH < length {
            return None;
        }
        Some(Name { bytes, length })
    }

    /// The scope around all packages: no bytes.
    pub fn root() -> Name
        ensures { result ≡ [] }
    {
        Name {
            bytes: [0u8; MAX_PATH],
            length: 0,
        }
    }

    /// The path of a name in a scope: `.a.b` and T give `.a.b.T`. Cut where it has over `MAX_PATH` bytes.
    pub fn new(scope: &[u8], name: &[u8]) -> Name
        ensures { result ≡ scope.now ⊙ name.now }
    {
        let mut bytes = [0u8; MAX_PATH];
        let length = fill_path(&mut bytes, scope, name);
        Name::cut(bytes, length)
    }

    /// The same, where it fits; else none.
    pub fn whole(scope: &[u8], name: &[u8]) -> Option<Name>
        ensures { result ≡ choose (fits scope.now name.now) (Some (scope.now · name.now)) None }
    {
        let mut bytes = [0u8; MAX_PATH];
        let needed = fill_path(&mut bytes, scope, name);
        Name::fitting(bytes, needed)
    }

    /// The scope of a file's declarations: its package behind a dot, or nothing. Cut where it has over `MAX_PATH` bytes.
    pub fn package(part: &[u8]) -> Name
        ensures { result ≡ take 512 (package_scope (decode_file part.now).package_name) }
    {
        let header = FileHeader::new(part);
        header
            .package
            .map_or_else(Name::root, |name| Name::new(b"", name))
    }

    /// Its bytes.
    pub fn as_bytes(&self) -> &[u8]
        ensures { result.now ≡ self.now }
    {
        &self.bytes[..self.length]
    }
}

/// The name of a message, field, oneof, enum or value; a missing one is empty.
pub fn name_of(part: &[u8]) -> &[u8]
    ensures { result.now ≡ text (decode_oneof part.now) }
{
    descriptor::name_of(part).unwrap_or_default()
}
