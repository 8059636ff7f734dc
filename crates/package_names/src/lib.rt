//! Packages of a set whose modules have one name.
#![tactic(auto)]

ghost use Rattle.std.specs.Prelude.{◌≡◌, ◌<◌, length, [], take};
ghost use Rattle.base.specs.Bytes.{b, same};
ghost use Rattle.extern_paths.specs.Split.{split};
ghost use Rattle.descriptor.specs.Decode.{entries, parts};
ghost use Rattle.package_names.specs.Packages.{meets, cut_snake, parts_meet, packages_meet, module_of, module_in, part_stands, packages_stand};
ghost use Rattle.base.specs.Lists.{any};
ghost use Rattle.name_check.specs.NameCheck.{modules_in};
ghost use Rattle.name_rows.specs.Rows.{rows_in};

use descriptor::FileHeader;
use descriptor::field_number::SET_FILE;
use joined::{MAX_PATH, Name};
use name_rows::Spelling;
use parts::Parts;
use split::Separator;

// The length of the longest home that has a declaration.
const MAX_HOME: usize = 256;

// A name in snake case, cut where it has over `MAX_PATH` bytes. As members' `camel_name` but for the spelling: a function over both would
// take `fill_snake` or `fill_upper_camel` as a closure, with its clause, or an enum with a match over it, and be no shorter.
fn snake_name(name: &[u8]) -> Name
    ensures { result ≡ cut_snake name.now }
{
    let mut bytes = [0u8; MAX_PATH];
    let length = ident::text::fill_snake(&mut bytes, name);
    Name::cut(bytes, length)
}

// Have two segments one snake name?
fn same_snake(x: &[u8], y: &[u8]) -> bool
    ensures { result ≡ same (cut_snake x.now) (cut_snake y.now) }
{
    let left = snake_name(x);
    let right = snake_name(y);
    left.as_bytes() == right.as_bytes()
}

// Do two packages meet? They are gone through segment by segment, up to the first that differs.
fn names_meet(x: &[u8], y: &[u8]) -> bool
    ensures { result ≡ meets cut_snake (split (b ".") x.now) (split (b ".") y.now) }
{
    x.split(|&c| c == b'.')
        .zip(y.split(|&c| c == b'.'))
        .find(|(left, right)| left != right)
        .is_some_and(|(left, right)| same_snake(left, right))
}

// Do the packages of these files? A missing one has no segment.
fn parts_meet(part: &[u8], other: &[u8]) -> bool
    ensures { result ≡ parts_meet part.now other.now }
{
    let left = FileHeader::new(part);
    let right = FileHeader::new(other);
    left.package
        .zip(right.package)
        .is_some_and(|(x, y)| names_meet(x, y))
}

// Does the package of the file meet one of the first n of the set's?
fn package_meets(set: &[u8], n: usize, part: &[u8]) -> bool
    ensures { result ≡ any (parts_meet part.now) (take n (parts 1 (entries set.now))) }
{
    Parts::new(set, SET_FILE)
        .take(n)
        .any(|other| parts_meet(part, other))
}

/// Do two packages of the set meet? No package meets itself, so each is asked of those before it.
pub fn packages_meet(set: &[u8]) -> bool
    ensures { result ≡ packages_meet set.now }
{
    let files = Parts::new(set, SET_FILE);
    files
        .enumerate()
        .any(|(n, part)| package_meets(set, n, part))
}

// Does the module of a segment in a home stand among these rows? A home of over 256 bytes has no declaration.
#[tactic(auto, unfolding(crate::specs::Packages::module_in))]
fn module_stands(rows: &[u8], home: &[u8], segment: &[u8]) -> bool
    ensures { result ≡ module_in (rows_in (length rows.now) rows.now) (module_of home.now segment.now) }
{
    home.len() <= MAX_HOME
        && name_rows::row_among(rows, &name_rows::row_of(home, Spelling::Snake, segment))
}

// Does that of one of a package's segments?
fn package_stands(rows: &[u8], name: &[u8]) -> bool
    ensures { result ≡ any (module_in (rows_in (length rows.now) rows.now)) (modules_in [] (split (b ".") name.now)) }
{
    let mut home = Name::root();
    for segment in split::Parts::new(name, Separator::Dot) {
        // The homes behind it are longer.
        if home.as_bytes().len() > MAX_HOME {
            return false;
        }
        if module_stands(rows, home.as_bytes(), segment) {
            return true;
        }
        home = Name::new(home.as_bytes(), segment);
    }
    false
}

// Does one of the file's package?
fn part_stands(rows: &[u8], part: &[u8]) -> bool
    ensures { result ≡ part_stands (rows_in (length rows.now) rows.now) part.now }
{
    FileHeader::new(part)
        .package
        .is_some_and(|name| package_stands(rows, name))
}

/// Does a module of the set's packages stand among these rows?
#[tactic(auto, unfolding(base::specs::Lists::any, crate::specs::Packages::packages_stand))]
pub fn packages_stand(rows: &[u8], set: &[u8]) -> bool
    ensures { result ≡ packages_stand (length rows.now) rows.now set.now }
{
    Parts::new(set, SET_FILE).any(|part| part_stands(rows, part))
}
