//! Refusal 2: extern paths that are invalid or doubled.
#![tactic(auto)]

ghost use Rattle.std.specs.Prelude.{◌≡◌, not, take};
ghost use Rattle.base.specs.Lists.{any};
ghost use Rattle.options.specs.Rows.{row_seen};
ghost use Rattle.path.specs.Forms.{among};
ghost use Rattle.extern_paths.specs.Seen.{paths_of};
ghost use Rattle.extern_checks.specs.Doubles.{has_gap, valid_path, prost_type_paths, lists, doubled, at_fault, externs};

use base::refusal::Refusal;
use extern_paths::prost_types::{PROST_TYPES, ProstType};
use options::{Kind, Options, Row};
use split::{Parts, Separator};

/// Has the path an empty segment behind a `.`?
fn has_gap(path: &[u8]) -> bool
    ensures { result ≡ has_gap path.now }
{
    Parts::new(path, Separator::Dot)
        .skip(1)
        .any(|segment| segment.is_empty())
}

/// validate_proto_path
#[tactic(auto, unfolding(crate::specs::Doubles::valid_path), using(crate::proofs::GapLaws::starts))]
fn is_valid(path: &[u8]) -> bool
    ensures { result ≡ valid_path path.now }
{
    path.starts_with(b".") && !has_gap(path)
}

/// Is x the path of one of some prost types?
fn is_among(types: &[ProstType], x: &[u8]) -> bool
    ensures { result ≡ among x.now (paths_of types.now) }
{
    types.iter().any(|prost| x == prost.path)
}

/// Is x one of the eleven paths of prost types?
#[tactic(auto, unfolding(crate::specs::Doubles::prost_type_paths, extern_paths::specs::ExternPaths::prost_types))]
fn is_prost_type(x: &[u8]) -> bool
    ensures { result ≡ among x.now prost_type_paths }
{
    is_among(&PROST_TYPES, x)
}

/// Does the row list an invalid path?
#[tactic(auto, using(crate::proofs::DoubleLaws::invalids))]
fn is_invalid(row: &Row<'_>) -> bool
    ensures { result ≡ any (λ x. not (valid_path x)) (lists (row_seen row.now)) }
{
    row.is(Kind::ExternPath) && !is_valid(row.path)
}

/// Does the row list the path x?
#[tactic(auto, using(crate::proofs::DoubleLaws::listed))]
fn lists_path(row: &Row<'_>, x: &[u8]) -> bool
    ensures { result ≡ among x.now (lists (row_seen row.now)) }
{
    if row.is(Kind::ExternPath) {
        x == row.path
    } else {
        row.is(Kind::ProstTypes) && is_prost_type(x)
    }
}

/// Does the row list one of the paths of prost types?
fn lists_prost_type(row: &Row<'_>) -> bool
    ensures { result ≡ any (λ x. among x (lists (row_seen row.now))) prost_type_paths }
{
    if row.is(Kind::ExternPath) {
        is_prost_type(row.path)
    } else {
        row.is(Kind::ProstTypes)
    }
}

/// Have the two rows a path in common?
#[tactic(auto, using(crate::proofs::DoubleLaws::doubles))]
fn is_doubled(row: &Row<'_>, other: &Row<'_>) -> bool
    ensures { result ≡ doubled (row_seen row.now) (row_seen other.now) }
{
    if row.is(Kind::ExternPath) {
        lists_path(other, row.path)
    } else {
        row.is(Kind::ProstTypes) && lists_prost_type(other)
    }
}

/// Has one of the rows before a row's number a path in common with it?
fn is_doubled_before(options: &Options<'_>, number: usize, row: &Row<'_>) -> bool
    ensures { result ≡ any (doubled (row_seen row.now)) (take number options.now) }
{
    options
        .rows()
        .take(number)
        .any(|earlier| is_doubled(row, &earlier))
}

/// Is the row with a number at fault?
#[tactic(auto, unfolding(crate::specs::Doubles::at_fault))]
fn is_at_fault(options: &Options<'_>, number: usize, row: &Row<'_>) -> bool
    ensures { result ≡ at_fault (take number options.now) (row_seen row.now) }
{
    is_invalid(row) || is_doubled_before(options, number, row)
}

/// Are the extern paths valid and each listed once? If not, refusal 2 with the first row that has a path which is invalid,
/// or which a row before it lists too.
pub fn check(options: &Options<'_>) -> Result<(), Refusal>
    ensures { result ≡ externs options.now }
{
    for (number, row) in options.rows().enumerate() {
        if is_at_fault(options, number, &row) {
            return Err(Refusal::ExternPath { row: number });
        }
    }
    Ok(())
}
