//! Judges the sets of cases.bin, each alone, and compares. In the pack a set is a field whose number gives the refusal's number and
//! place, both 0 without one (cases::code_of). The index of a case that differs is printed.
#![tactic(auto)]

use base::refusal::Returned;
use cases::Case;
use std::{fs, io};

fn holds(case: Case<'_>) -> bool {
    let returned = Returned::from(set_rules::judge_set(case.bytes).map(|()| 0));
    cases::code_of(returned.number, returned.place) == Some(case.number)
}

fn main(rt: HostRuntime) -> io::Result<()> {
    let pack = fs::read(&rt, "cases.bin")?;
    let tally = cases::compare_pack(&mut io::writer(&rt), &pack, holds)?;
    println!(rt; "{}", tally.at_most(cases::MOST))
}
