//! What is a name: `[A-Za-z_][A-Za-z0-9_]*`, and has a letter or digit.
ghost use Rattle.std.specs.Prelude.{◌≡◌};
ghost use Rattle.std.specs.Char.{is_ascii_alphanumeric};
ghost use Rattle.std.specs.List.{list_any, list_all};
ghost use Rattle.ident.specs.Name.{name_start, name_part, is_name, has_word};

/// Can a name begin with the byte?
#[tactic(auto, using(crate::proofs::NameLaws::start_is))]
fn is_name_start(byte: u8) -> bool
    ensures { result ≡ name_start byte }
{
    byte.is_ascii_alphabetic() || byte == b'_'
}

/// Can it stand in a name?
#[tactic(auto, unfolding(crate::specs::Name::name_part, heck::specs::Case::between))]
fn is_name_part(byte: u8) -> bool
    ensures { result ≡ name_part byte }
{
    byte.is_ascii_digit() || is_name_start(byte)
}

// A function of its own, as `any_alphanumeric`: a chain is proved against the library's `list_all` and `list_any` alone.
fn are_name_parts(bytes: &[u8]) -> bool
    ensures { result ≡ list_all name_part bytes.now }
{
    bytes.iter().all(|&byte| is_name_part(byte))
}

/// Is it an identifier?
#[tactic(auto, using(crate::proofs::NameLaws::every_is), unfolding(crate::specs::Name::is_name))]
pub fn is_name(s: &[u8]) -> bool
    ensures { result ≡ is_name s.now }
{
    s.split_first().is_some_and(|(&first, rest)| is_name_start(first) && are_name_parts(rest))
}

fn any_alphanumeric(bytes: &[u8]) -> bool
    ensures { result ≡ list_any is_ascii_alphanumeric bytes.now }
{
    bytes.iter().any(u8::is_ascii_alphanumeric)
}

/// Is a letter or digit among the bytes?
#[tactic(auto, using(crate::proofs::NameLaws::has_word_is))]
pub fn has_word(s: &[u8]) -> bool
    ensures { result ≡ has_word s.now }
{
    any_alphanumeric(s)
}
