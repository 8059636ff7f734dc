//! The package of a file, which the programs print before its text.
#![tactic(auto)]

ghost use Rattle.std.specs.Prelude.{◌≡◌};
ghost use Rattle.descriptor.specs.Decode.{entries, parts, decode_file};
ghost use Rattle.name_rules.specs.Accessors.{text};
ghost use Rattle.file_parts.specs.FileParts.{part_at};

use descriptor::FileHeader;

/// The package of the file with the index; nothing where it has none, or where there is no such file.
pub fn package_of(set: &[u8], file: usize) -> &[u8]
    ensures { result.now ≡ text (decode_file (part_at (parts 1 (entries set.now)) file)).package_name }
{
    let header = FileHeader::new(file_parts::file_part(set, file));
    header.package.unwrap_or_default()
}
