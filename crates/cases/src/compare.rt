//! The comparison of answers with those recorded.
ghost use Rattle.std.specs.Prelude.{◌≡◌, ◌-◌, ◌^◌, IfOk, Option, None, Some, true, false, length, map, min};
ghost use Rattle.std.specs.Iterator.{Drains, IsFinite};
ghost use Rattle.cases.specs.Compared.{Compared};
ghost use Rattle.cases.specs.Lines.{lines};
ghost use Rattle.cases.specs.Pack.{cases_in};

use crate::lines::Lines;
use crate::pack::{Case, Pack};
use crate::tally::{MOST, Tally};
use std::fmt::Display;
use std::io;
use std::io::Write;

/// Counts the cases, and prints on a line of its own what `differs` gives of each case whose answer is not the recorded one.
// What it asks, it asks of its types alone: any iterator and any function may be given, and one of them may ask something of
// its caller, or have no end.
pub fn compare_all<
    W: Write,
    C,
    I: Iterator<Item = C> + Drop,
    D: Display + Drop,
    F: Fn(C) -> Option<D> + Drop,
>(out: &mut W, cases: I, differs: F) -> io::Result<Tally>
    requires can { I.can_next cases }
    requires ends { IsFinite (I.remaining cases) }
    requires callable { F.IsAlwaysCallable differs }
    ensures { IfOk result (λ t. (all : _) × Drains I.next_gives cases all × Compared (λ c. F.post differs c None) (λ c. (d : D) × F.post differs c (Some d)) all t) }
{
    let mut tally = Tally::new();
    for case in cases {
        match differs(case) {
            None => tally.count(true),
            Some(words) => {
                tally.count(false);
                writeln!(out, "{words}")?;
            }
        }
    }
    Ok(tally)
}

/// Compares the lines of a list, and prints each that `holds` doesn't hold of, as its bytes are.
// Not by `compare_all`: what is `Display` is text, and a line may be any bytes.
pub fn compare_lines<W: Write, F: Fn(&[u8]) -> bool + Drop>(
    out: &mut W,
    list: &[u8],
    holds: F,
) -> io::Result<Tally>
    requires callable { F.IsAlwaysCallable holds }
    ensures { IfOk result (λ t. (all : _) × (map (λ line. line.now) all ≡ lines list.now) × Compared (λ line. F.post holds line true) (λ line. F.post holds line false) all t) }
{
    let mut tally = Tally::new();
    for line in Lines::new(list) {
        let same = holds(line);
        tally.count(same);
        if !same {
            out.write_all(line)?;
            out.write_all(b"\n")?;
        }
    }
    Ok(tally)
}

/// Compares the cases of a pack, and prints the index of each that `holds` doesn't hold of, or that can't be read. An index over
/// `MOST` is printed as `MOST`.
pub fn compare_pack<W: Write, F: Fn(Case<'_>) -> bool + Drop>(
    out: &mut W,
    pack: &[u8],
    holds: F,
) -> io::Result<Tally>
    requires callable { F.IsAlwaysCallable holds }
    ensures { IfOk result (λ t. t.compared ≡ min (length (cases_in pack.now)) (2 ^ 64 - 1)) }
{
    let cases = Pack::new(pack).enumerate();
    compare_all(out, cases, |(index, case)| {
        // a cast: a `u64` has no `From` of a `usize`
        (!matches!(case, Ok(case) if holds(case))).then_some((index as u64).min(MOST))
    })
}
