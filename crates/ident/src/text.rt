//! Names that are written into a text.
ghost use Rattle.std.specs.Prelude.{◌≡◌};
ghost use Rattle.writer.specs.Draft.{Filled};
ghost use Rattle.writer.specs.Writing.{◌▻◌};
ghost use Rattle.ident.specs.Ident.{addition, is_trailing, sanitize_identifier, to_snake, to_upper_camel, strip_enum_prefix};

use crate::keywords::{Addition, begins_kept};
use crate::{MAX_SNAKE, prefix};
use heck::Cased;
use writer::Text;

/// What sanitising adds to a spelt name.
#[tactic(auto, using(crate::proofs::AdditionLaws::head_addition))]
fn addition_to(name: Cased<'_>) -> Addition
    ensures { result ≡ addition name.entry }
{
    // No listed word has nine bytes.
    let mut head = [0u8; 9];
    let length = name.fill(&mut head);
    Addition::of(&head[..length.min(9)])
}

/// A name as it stands, sanitised.
#[tactic(auto, using(crate::proofs::AdditionLaws::sanitized))]
pub fn put_sanitized(text: &mut Text<'_>, name: &[u8])
    ensures { text.new ≡ text.old ▻ sanitize_identifier name.now }
{
    let added = Addition::of(name);
    added.put_before(text);
    text.put(name);
    added.put_behind(text);
}

/// A spelt name of any length, sanitised.
#[tactic(auto, using(crate::proofs::AdditionLaws::sanitized))]
fn put_long_name(text: &mut Text<'_>, name: Cased<'_>)
    ensures { text.new ≡ text.old ▻ sanitize_identifier name.entry }
{
    let added = addition_to(name.again());
    added.put_before(text);
    name.put(text);
    added.put_behind(text);
}

/// The same, spelt once where it has at most `MAX_SNAKE` bytes.
#[tactic(auto, using(crate::proofs::AdditionLaws::whole_name))]
fn put_name(text: &mut Text<'_>, name: Cased<'_>)
    ensures { text.new ≡ text.old ▻ sanitize_identifier name.entry }
{
    let mut spelt = [0u8; MAX_SNAKE];
    let length = name.again().fill(&mut spelt);
    if length <= MAX_SNAKE {
        put_sanitized(text, &spelt[..length]);
    } else {
        put_long_name(text, name);
    }
}

/// The snake name of a field or module.
// A function for each case, as heck has them: a case as a parameter would stand at each call.
#[tactic(auto, unfolding(crate::specs::Ident::to_snake))]
pub fn put_snake(text: &mut Text<'_>, name: &[u8])
    ensures { text.new ≡ text.old ▻ to_snake name.now }
{
    put_name(text, Cased::snake(name));
}

/// The camel name of a struct, an enum or a variant.
#[tactic(auto, unfolding(crate::specs::Ident::to_upper_camel))]
pub fn put_upper_camel(text: &mut Text<'_>, name: &[u8])
    ensures { text.new ≡ text.old ▻ to_upper_camel name.now }
{
    put_name(text, Cased::upper_camel(name));
}

/// A name without a prefix that an uppercase letter follows, sanitised.
#[tactic(auto, unfolding(crate::specs::Ident::strip_enum_prefix))]
pub fn put_stripped(text: &mut Text<'_>, prefix: &[u8], name: &[u8])
    ensures { text.new ≡ text.old ▻ strip_enum_prefix prefix.now name.now }
{
    put_sanitized(text, prefix::behind_bytes(prefix, name));
}

/// Does a camel name gain a trailing `_`?
#[tactic(auto, using(crate::proofs::NumberLaws::kept_laws))]
fn is_kept(name: &Cased<'_>) -> bool
    ensures { result ≡ is_trailing (addition name.now) }
{
    // Few names begin as one that does.
    let first = name.again().next();
    matches!(first, Some(byte) if begins_kept(byte)
        && addition_to(name.again()) == Addition::Trailing)
}

/// The camel name of an enum's value, without the enum's own written name in front.
#[tactic(auto, using(crate::proofs::Stripped::strip_none, crate::proofs::Stripped::strip_rest))]
pub fn put_variant(text: &mut Text<'_>, prefix: &[u8], name: &[u8])
    ensures { text.new ≡ text.old ▻ strip_enum_prefix (to_upper_camel prefix.now) (to_upper_camel name.now) }
{
    let prefix = Cased::upper_camel(prefix);
    let name = Cased::upper_camel(name);
    if is_kept(&prefix) {
        put_name(text, name);
    } else {
        put_name(text, prefix::behind(prefix, name));
    }
}

/// The snake name, as far as the buffer goes, and its length.
// A text is begun, written and measured: over a closure that is no shorter.
pub fn fill_snake(buffer: &mut [u8], name: &[u8]) -> usize
    ensures { Filled buffer.old (to_snake name.now) buffer.new result }
{
    let mut text = Text::new(buffer);
    put_snake(&mut text, name);
    text.length
}

/// The camel name, as far as the buffer goes, and its length.
pub fn fill_upper_camel(buffer: &mut [u8], name: &[u8]) -> usize
    ensures { Filled buffer.old (to_upper_camel name.now) buffer.new result }
{
    let mut text = Text::new(buffer);
    put_upper_camel(&mut text, name);
    text.length
}
