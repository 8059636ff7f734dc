//! Asks the name check about the cases of cases.bin, and compares. In the pack a case is a field with the set as its field 1 and the
//! options as its field 2; its number gives the number and the place of the answer (cases::code_of; the number is 0 without a refusal,
//! and the place is then 1 for yes and 0 for no). The index of a case that differs is printed.
#![tactic(auto)]

use base::refusal::Returned;
use cases::{Case, Pack};
use std::{fs, io};

/// The first field with the number, or no bytes.
fn part_with(bytes: &[u8], number: u64) -> &[u8] {
    Pack::new(bytes)
        .filter_map(|part| part.ok())
        .find(|part| part.number == number)
        .map_or(&[], |part| part.bytes)
}

fn holds(case: Case<'_>) -> bool {
    let set = part_with(case.bytes, 1);
    let options = part_with(case.bytes, 2);
    let returned = Returned::from(name_call::check_names(set, options).map(usize::from));
    cases::code_of(returned.number, returned.place) == Some(case.number)
}

fn main(rt: HostRuntime) -> io::Result<()> {
    let pack = fs::read(&rt, "cases.bin")?;
    let tally = cases::compare_pack(&mut io::writer(&rt), &pack, holds)?;
    println!(rt; "{}", tally.at_most(cases::MOST))
}
