//! The path from a scope to a declaration, from module to module.
#![tactic(auto)]

ghost use Rattle.std.specs.Prelude.{◌≡◌, ◌++◌, ◌<◌, length, drop};
ghost use Rattle.base.specs.Bytes.{b};
ghost use Rattle.split.specs.Split.{split};
ghost use Rattle.code_generator.specs.Resolve.{last_name, front, way};
ghost use Rattle.writer.specs.Text.{each};
ghost use Rattle.writer.specs.Writing.{◌▻◌};
ghost use Rattle.ident.specs.Ident.{to_upper_camel};
ghost use Rattle.code_generator.specs.Piece.{through, way_text};
ghost use Rattle.way.specs.Names.{common, downwards};

use ident::text::{put_snake, put_upper_camel};
use split::{Parts, Separator};
use writer::Text;

/// The last name of a path.
pub fn last_name(path: &[u8]) -> &[u8]
    ensures { result.now ≡ last_name (split (b ".") path.now) }
{
    Parts::new(path, Separator::Dot).last().unwrap_or_default()
}

/// A path without the dot in front.
fn without_dot(path: &[u8]) -> &[u8]
    ensures { result.now ≡ drop 1 path.now }
{
    if path.is_empty() { path } else { &path[1..] }
}

/// How many names a path has.
fn count_names(path: &[u8]) -> usize
    ensures { result ≡ length (split (b ".") path.now) }
{
    Parts::new(path, Separator::Dot).count()
}

/// How many names two paths have in common at their start.
fn common(scope: &[u8], ident: &[u8]) -> usize
    ensures { result ≡ common (split (b ".") scope.now) (split (b ".") ident.now) }
{
    Parts::new(scope, Separator::Dot)
        .zip(Parts::new(ident, Separator::Dot))
        .take_while(|(outer, name)| outer == name)
        .count()
}

/// The names of a path behind the first `n`.
fn names_behind(ident: &[u8], n: usize) -> Parts<'_>
    ensures { result ≡ drop n (split (b ".") ident.now) }
{
    let mut names = Parts::new(ident, Separator::Dot);
    // no `skip`: what is left is a `Parts` itself, as `put_downwards` takes it
    for _ in 0..n {
        names.next();
    }
    names
}

/// `super` for `n` names of the scope.
fn put_supers(text: &mut Text<'_>, n: usize)
    ensures { text.new ≡ text.old ▻ each (λ _. b "super::") n }
{
    for _ in 0..n {
        text.put(b"super::");
    }
}

/// The names that are left of an identifier: modules, and the type.
fn put_downwards(text: &mut Text<'_>, names: Parts<'_>)
    requires { 0 < length names }
    ensures { text.new ≡ text.old ▻ downwards names.entry }
{
    let mut names = names;
    let Some(mut module) = names.next() else {
        return;
    };
    for name in names {
        put_snake(text, module);
        text.put(b"::");
        module = name;
    }
    put_upper_camel(text, module);
}

/// The path from a scope to a type, by full names. The names that they have in common at their start are skipped, but not the
/// type's.
pub fn put_way(text: &mut Text<'_>, scope: &[u8], ident: &[u8])
    ensures { text.new ≡ text.old ▻ way_text (way scope.now ident.now) }
{
    let names = without_dot(ident);
    if scope.is_empty() {
        put_downwards(text, Parts::new(names, Separator::Dot));
        return;
    }
    let above = without_dot(scope);
    let modules = count_names(names) - 1;
    let skipped = common(above, names).min(modules);
    let left = count_names(above) - skipped;
    put_supers(text, left);
    put_downwards(text, names_behind(names, skipped));
}
