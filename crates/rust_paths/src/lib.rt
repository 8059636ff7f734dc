//! A Rust path by segments: in snake case, the last in camel case where it is a type.
#![tactic(auto)]

ghost use Rattle.std.specs.Prelude.{◌≡◌, true, [], ◌++◌, map};
ghost use Rattle.rust_paths.specs.Parts.{cut, is_tail, led, segments, led_parts, path_text};
ghost use Rattle.base.specs.Bytes.{b};
ghost use Rattle.writer.specs.Text.{pick};
ghost use Rattle.writer.specs.Writing.{◌▻◌};
ghost use Rattle.ident.specs.Ident.{to_snake, to_upper_camel};
ghost use Rattle.rust_paths.specs.Segments.{written, first_segment};

use ident::text::{put_snake, put_upper_camel};
use split::{Parts, Separator};
use writer::Text;

/// How much of p stands before the last separator, where a `::` follows p: all, or all but a `:` that makes one with it.
#[tactic(auto, using(crate::proofs::CutLaws::cuts_on))]
fn cut_at(p: &[u8]) -> usize
    ensures { result ≡ cut p.now }
{
    let mut i = 0;
    // no `for`: a separator is two bytes, any other step one
    while i < p.len() {
        if &p[i..] == b":".as_slice() {
            return i;
        }
        if p[i..].starts_with(b"::") {
            i += 2;
        } else {
            i += 1;
        }
    }
    i
}

/// Is q empty, or a `::` first in it?
#[tactic(auto, using(crate::proofs::PartLaws::tails))]
fn is_rest(q: &[u8]) -> bool
    ensures { result ≡ is_tail q.now }
{
    q.is_empty() || q.starts_with(b"::")
}

// `camel` is a flag, as the definition `segments` takes it: with an enum each clause would turn it into one.

/// The last part: in camel case where it is a type.
#[tactic(auto, unfolding(writer::specs::Text::pick))]
fn put_last(text: &mut Text<'_>, camel: bool, part: &[u8])
    ensures { text.new ≡ text.old ▻ pick camel (to_upper_camel part.now) (to_snake part.now) }
{
    if camel {
        put_upper_camel(text, part);
    } else {
        put_snake(text, part);
    }
}

/// The parts that are left, each behind a `::` and in snake case; with `camel`, the last is a type.
fn put_parts(text: &mut Text<'_>, parts: Parts<'_>, camel: bool)
    ensures { text.new ≡ text.old ▻ led (map written (segments camel parts.entry)) }
{
    let mut parts = parts;
    let Some(mut last) = parts.next() else {
        return;
    };
    for part in parts {
        text.put(b"::");
        put_snake(text, last);
        last = part;
    }
    text.put(b"::");
    put_last(text, camel, last);
}

/// The first segment of a Rust path: `crate` isn't converted.
#[tactic(auto, unfolding(crate::specs::Segments::first_segment, base::specs::Choose::choose, base::specs::Bytes::same))]
fn put_first(text: &mut Text<'_>, part: &[u8])
    ensures { text.new ≡ text.old ▻ written (first_segment part.now) }
{
    if part == b"crate".as_slice() {
        text.put(part);
    } else {
        put_snake(text, part);
    }
}

/// A Rust path, its segments in snake case.
fn put_path(text: &mut Text<'_>, path: &[u8])
    ensures { text.new ≡ text.old ▻ path_text path.now }
{
    let mut parts = Parts::new(path, Separator::Colons);
    if let Some(first) = parts.next() {
        put_first(text, first);
        put_parts(text, parts, false);
    }
}

/// The Rust path `path` and `tail`, its segments in snake case. The tail is empty or begins with a `::`.
fn put_joined(text: &mut Text<'_>, path: &[u8], tail: &[u8])
    requires { is_tail tail.now ≡ true }
    ensures { text.new ≡ text.old ▻ path_text (path.now ++ tail.now) }
{
    if tail.is_empty() {
        put_path(text, path);
        return;
    }
    let end = cut_at(path);
    put_path(text, &path[..end]);
    let seen = path.len() - end;
    let from = 2 - seen;
    put_parts(text, Parts::new(&tail[from..], Separator::Colons), false);
}

/// The Rust path `path` and `tail`, its segments in snake case, where the tail is empty or begins with a `::`; nothing for
/// another tail.
pub fn put_rust_path(text: &mut Text<'_>, path: &[u8], tail: &[u8])
    ensures { text.new ≡ text.old ▻ pick (is_tail tail.now) (path_text (path.now ++ tail.now)) [] }
{
    if is_rest(tail) {
        put_joined(text, path, tail);
    }
}

/// The protobuf segments of a name, each behind a `::`; the last is the type.
#[tactic(auto, unfolding(crate::specs::Parts::led_parts))]
pub fn put_behind(text: &mut Text<'_>, name: &[u8])
    ensures { text.new ≡ text.old ▻ led_parts true (b ".") name.now }
{
    put_parts(text, Parts::new(name, Separator::Dot), true);
}
