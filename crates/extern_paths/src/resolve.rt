//! What extern paths make of a full name: whether one takes it, and what is written for it.
ghost use Rattle.std.specs.Prelude.{◌≡◌, true, false, ◌++◌, ◌+◌, ◌^◌, ◌<◌, ◌≤◌, length, IfSome, IfNone, [], map, get_or};
ghost use Rattle.base.specs.Bytes.{b};
ghost use Rattle.writer.specs.Writing.{◌▻◌};
ghost use Rattle.options.specs.Settings.{prost_path};
ghost use Rattle.path.specs.Worth.{weighed, best_of, none_yet};
ghost use Rattle.rust_paths.specs.Segments.{extern_text};
ghost use Rattle.rust_paths.specs.Parts.{is_tail};
ghost use Rattle.extern_paths.specs.ExternPaths.{extern, extern_paths, taken, resolve_by, resolve_ident};
ghost use Rattle.extern_paths.specs.ProstTypes.{best_word};
ghost use Rattle.extern_paths.specs.Seen.{extern_seen, paths_of, type_seen, type_tail};

use crate::prost_types::{PROST_TYPES, ProstType, Value};
use options::{Kind, Options};
use path::Best;
use rust_paths::{put_behind, put_rust_path};
use writer::Text;

/// An extern path: the full name or prefix that it takes, and what stands for that in Rust, in two pieces. The second piece is
/// empty or begins with a `::`.
#[derive(Clone, Copy)]
pub struct ExternPath<'a> {
    pub path: &'a [u8],
    pub value: &'a [u8],
    pub tail: &'a [u8],
}

/// The best of some prost types as a form of a name, numbered from `first` on, if it is better than the best so far.
#[tactic(auto, unfolding(crate::specs::ProstTypes::best_word))]
fn best_type(types: &[ProstType], best: Best, first: usize, ident: &[u8]) -> Best
    requires { first + length types.now < 2 ^ 32 }
    ensures { result ≡ best_word (weighed false ident.now) best first (paths_of types.now) }
{
    let mut most = best;
    for (number, prost) in types.iter().enumerate() {
        most = most.improved(first + number, path::worth(ident, false, prost.path));
    }
    most
}

/// The extern path that is worth most for a name, the rows before prost types.
fn best_extern(options: &Options<'_>, ident: &[u8]) -> Best
    ensures { result ≡ best_of (weighed false ident.now) 1 none_yet 0 (extern_paths options.now) }
{
    let best = path::best_row(options, Kind::ExternPath.number(), ident, false);
    if options.has(Kind::ProstTypes) {
        best_type(&PROST_TYPES, best, options.row_count(), ident)
    } else {
        best
    }
}

/// Does an extern path take this full name?
#[tactic(auto, using(crate::proofs::TakerLaws::taken_is))]
pub fn takes(options: &Options<'_>, ident: &[u8]) -> bool
    ensures { result ≡ taken options.now ident.now }
{
    best_extern(options, ident).worth != 0
}

/// The extern path of a prost type; `own` is where prost types stand in Rust.
fn prost_type<'a>(options: &Options<'a>, own: &'a [u8], by: ProstType) -> ExternPath<'a>
    ensures is { extern_seen result ≡ type_seen (prost_path options.now) own.now by }
    ensures tail { result.tail.now ≡ type_tail by.value }
{
    let (value, tail): (&'a [u8], &'a [u8]) = match by.value {
        Value::Own => (own, b""),
        Value::Plain(value) => (value, b""),
        Value::InProst(tail) => (options.prost_path(), tail),
    };
    ExternPath {
        path: by.path,
        value,
        tail,
    }
}

/// The extern path of type j of some prost types; past their end, of nothing.
fn numbered_prost_type<'a>(
    options: &Options<'a>,
    own: &'a [u8],
    types: &[ProstType],
    j: usize,
) -> ExternPath<'a>
    ensures is { extern_seen result ≡ get_or (map (type_seen (prost_path options.now) own.now) types.now) j (extern [] []) }
    ensures tail { result.tail.now ≡ get_or (map (λ t. type_tail t.value) types.now) j [] }
{
    match types.get(j) {
        Some(by) => prost_type(options, own, *by),
        None => ExternPath {
            path: b"",
            value: b"",
            tail: b"",
        },
    }
}

/// The extern path that takes a full name, if one does.
pub fn find<'a>(options: &Options<'a>, ident: &[u8]) -> Option<ExternPath<'a>>
    ensures none { IfNone result (resolve_ident options.now ident.now ≡ []) }
    ensures free { IfNone result (taken options.now ident.now ≡ false) }
    ensures held { IfSome result (λ _. taken options.now ident.now ≡ true) }
    ensures some { IfSome result (λ e. resolve_by (extern_seen e) ident.now ≡ resolve_ident options.now ident.now) }
    ensures tail { IfSome result (λ e. is_tail e.tail.now ≡ true) }
{
    let best = best_extern(options, ident);
    if best.worth == 0 {
        return None;
    }
    // the definitions number the rows and the prost types in one list
    let count = options.row_count();
    if best.number < count {
        let row = options.row(best.number)?;
        return Some(ExternPath {
            path: row.path,
            value: row.value,
            tail: b"",
        });
    }
    let own = options.find(Kind::ProstTypes)?.value;
    let number = best.number - count;
    Some(numbered_prost_type(options, own, &PROST_TYPES, number))
}

/// Writes what stands for a name that this extern path takes.
pub fn put_by(text: &mut Text<'_>, by: &ExternPath<'_>, ident: &[u8])
    ensures { is_tail by.now.tail.now ≡ true → text.new ≡ text.old ▻ extern_text (resolve_by (extern_seen by.now) ident.now) }
{
    if by.path == ident {
        text.put(by.value);
        text.put(by.tail);
    } else {
        put_rust_path(text, by.value, by.tail);
        let behind = (by.path.len() + 1).min(ident.len());
        put_behind(text, &ident[behind..]);
    }
}

/// Writes what stands for a full name that an extern path takes; nothing for another.
pub fn resolve_ident(text: &mut Text<'_>, options: &Options<'_>, ident: &[u8])
    ensures { text.new ≡ text.old ▻ extern_text (resolve_ident options.now ident.now) }
{
    if let Some(by) = find(options, ident) {
        put_by(text, &by, ident);
    }
}
