//! Refusal 8: two variants of a written enum have the same name.
ghost use Rattle.std.specs.Prelude.{◌≡◌, map, drop, Some, None};
ghost use Rattle.base.specs.Choose.{choose};
ghost use Rattle.base.specs.Bytes.{same};
ghost use Rattle.checksums.specs.Sums.{sum_of};
ghost use Rattle.checksums.specs.Lists.{all_pushed};
ghost use Rattle.writer.specs.Draft.{Filled};
ghost use Rattle.std.specs.List.{list_any};
ghost use Rattle.descriptor.specs.Descriptor.{Bytes};
ghost use Rattle.descriptor.specs.Decode.{decode_enum};
ghost use Rattle.code_generator.specs.Enums.{build_enum_value_mappings};
ghost use Rattle.code_generator.specs.Refusals.{overlap};
ghost use Rattle.enum_text.specs.EnumText.{first_values};
ghost use Rattle.enum_text.specs.Overlap.{variant_name, has_room, asked, names, value_sums, enum_meets};

use checksums::Sums;
use descriptor::EnumValueDescriptor;
use enum_values::{Enumeration, build_enum_value_mappings, put_variant_name, value_name};
use extern_paths::resolve::takes;
use joined::{MAX_PATH, Name, name_of};
use limits::limit::MAX_VALUES;
use options::Options;
use writer::Text;

/// An enum, and the options by which its variants are named.
#[derive(Drop)]
struct Variants<'o, 'e> {
    options: &'o Options<'o>,
    enumeration: Enumeration<'e>,
}

impl<'o, 'e> Variants<'o, 'e> {
    /// The name of a value's variant, as far as the buffer goes, and its length.
    // A text is begun, written and measured: over a closure that is no shorter.
    #[tactic(auto, unfolding(crate::specs::Overlap::variant_name))]
    fn fill_name(&self, buffer: &mut [u8], value: &EnumValueDescriptor<'_>) -> usize
        ensures { Filled buffer.old (variant_name self.now.options.now self.now.enumeration.name value.now) buffer.new result }
    {
        let mut text = Text::new(buffer);
        put_variant_name(
            &mut text,
            self.options,
            self.enumeration.name(),
            value_name(value),
        );
        text.length
    }

    /// The name of a value's variant, where it has room.
    fn name(&self, value: &EnumValueDescriptor<'_>) -> Option<Name>
        ensures { result ≡ choose (has_room self.now.options.now self.now.enumeration.name value.now) (Some (variant_name self.now.options.now self.now.enumeration.name value.now)) None }
    {
        let mut bytes = [0u8; MAX_PATH];
        let length = self.fill_name(&mut bytes, value);
        Name::fitting(bytes, length)
    }

    /// Is this the name of a value's variant?
    #[tactic(auto, unfolding(crate::specs::Overlap::asked, base::specs::Choose::choose))]
    fn is_named(&self, name: &[u8], value: &EnumValueDescriptor<'_>) -> bool
        ensures { result ≡ asked self.now.options.now self.now.enumeration.name (same name.now) value.now }
    {
        self.name(value)
            .is_some_and(|other| name == other.as_bytes())
    }

    /// Has one of the values behind the first `from` this name?
    fn comes(&self, name: &[u8], from: usize) -> bool
        ensures { result ≡ list_any (asked self.now.options.now self.now.enumeration.name (same name.now)) (drop from self.now.enumeration.values) }
    {
        self.enumeration
            .values()
            .skip(from)
            .any(|value| self.is_named(name, &value))
    }

    /// Has one of the values behind the first `from` the name of this one?
    #[tactic(auto, unfolding(crate::specs::Overlap::asked, base::specs::Choose::choose))]
    fn comes_again(&self, value: &EnumValueDescriptor<'_>, from: usize) -> bool
        ensures { result ≡ asked self.now.options.now self.now.enumeration.name (λ (x : Bytes). list_any (asked self.now.options.now self.now.enumeration.name (same x)) (drop from self.now.enumeration.values)) value.now }
    {
        // `is_some_and` was tried: of a closure that calls `comes` nothing is inferred, and its proof did not close
        match self.name(value) {
            Some(name) => self.comes(name.as_bytes(), from),
            None => false,
        }
    }

    /// Have two values the same name?
    fn meets(&self) -> bool
        ensures { result ≡ overlap (names self.now.options.now self.now.enumeration.name self.now.enumeration.values) }
    {
        self.enumeration
            .values()
            .enumerate()
            .any(|(i, value)| self.comes_again(&value, i + 1))
    }

    /// The checksum of a value's name, behind those that are there.
    fn put_sum_of(&self, sums: &mut Sums<MAX_VALUES>, value: &EnumValueDescriptor<'_>)
        ensures { sums.new ≡ all_pushed 256 sums.old (value_sums self.now.options.now self.now.enumeration.name value.now) }
    {
        if let Some(name) = self.name(value) {
            sums.push(checksums::checksum(name.as_bytes()));
        }
    }

    /// The checksums of the values' names, behind those that are there.
    fn put_sums(&self, sums: &mut Sums<MAX_VALUES>)
        ensures { sums.new ≡ all_pushed 256 sums.old (map sum_of (names self.now.options.now self.now.enumeration.name self.now.enumeration.values)) }
    {
        for value in self.enumeration.values() {
            self.put_sum_of(sums, &value);
        }
    }

    /// Have two values the same name? Not where no checksum comes twice.
    fn overlap(&self) -> bool
        ensures { result ≡ overlap (names self.now.options.now self.now.enumeration.name self.now.enumeration.values) }
    {
        let mut sums = Sums::new();
        self.put_sums(&mut sums);
        sums.may_repeat() && self.meets()
    }
}

/// Do variants overlap in an enum that no extern path takes?
fn written_overlaps<'o>(part: &[u8], options: &'o Options<'o>, full: &[u8], name: &[u8]) -> bool
    ensures { result ≡ overlap (names options.now name.now (build_enum_value_mappings (first_values (decode_enum part.now)))) }
{
    let kept = build_enum_value_mappings(part);
    let enumeration = Enumeration::new(full, name, part, &kept.marks);
    Variants {
        options,
        enumeration,
    }
    .overlap()
}

/// Do variants overlap in the enum whose bytes are `part`?
pub fn enum_overlaps(part: &[u8], options: &Options<'_>, scope: &[u8]) -> bool
    ensures { result ≡ enum_meets options.now scope.now (decode_enum part.now) }
{
    let name = name_of(part);
    // `is_some_and` was tried: its proof did not close, of a closure with these two calls
    match Name::whole(scope, name) {
        Some(full) => {
            !takes(options, full.as_bytes())
                && written_overlaps(part, options, full.as_bytes(), name)
        }
        None => false,
    }
}
