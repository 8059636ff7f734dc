//! What stands behind a prefix in a name.
ghost use Rattle.std.specs.Prelude.{◌≡◌, get_or};
ghost use Rattle.std.specs.Char.{is_ascii_uppercase};
ghost use Rattle.ident.specs.Ident.{strip_prefix, true_prefix};

use heck::Cased;

/// The rest of a spelt name behind a prefix that an uppercase letter follows, and else the whole name.
#[tactic(auto, using(crate::proofs::PrefixLaws::step_laws))]
pub fn behind<'a>(prefix: Cased<'_>, name: Cased<'a>) -> Cased<'a>
    ensures { result ≡ true_prefix (strip_prefix prefix.entry name.entry) name.entry }
{
    let mut rest = name.again();
    for byte in prefix {
        if rest.next() != Some(byte) {
            return name;
        }
    }
    match rest.again().next() {
        Some(first) if first.is_ascii_uppercase() => rest,
        _ => name,
    }
}

fn upper_first(name: &[u8]) -> bool
    ensures { result ≡ is_ascii_uppercase (get_or name.now 0 0) }
{
    matches!(name, [byte, ..] if byte.is_ascii_uppercase())
}

/// The same of names as they stand.
#[tactic(auto, using(crate::proofs::PrefixLaws::slice_laws))]
pub fn behind_bytes<'a>(prefix: &[u8], name: &'a [u8]) -> &'a [u8]
    ensures { result.now ≡ true_prefix (strip_prefix prefix.now name.now) name.now }
{
    match name.strip_prefix(prefix) {
        Some(rest) if upper_first(rest) => rest,
        _ => name,
    }
}
