//! Judges the sets of cases.bin by refusal 6, each file by itself, and compares. In the pack a set whose first file at fault has the
//! index i is a field with the number i + 1; where there is none, i is the count of files. The index of a case that differs is printed.
#![tactic(auto)]

use cases::Case;
use std::{fs, io};

fn holds(case: Case<'_>) -> bool {
    let file = file_names::first_bad_file(case.bytes);
    usize::try_from(case.number).is_ok_and(|number| number.checked_sub(1) == Some(file))
}

// As in name_check_cases and rule_cases: a function over the three would be lent the world and `holds`, and each `main` would still
// call it.
fn main(rt: HostRuntime) -> io::Result<()> {
    let pack = fs::read(&rt, "cases.bin")?;
    let tally = cases::compare_pack(&mut io::writer(&rt), &pack, holds)?;
    println!(rt; "{}", tally.at_most(cases::MOST))
}
