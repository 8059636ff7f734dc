//! Compares what options give with recorded and written answers. A line of a list has four parts, separated by tabs: what is
//! asked, options in hex, a name, and the answer; one that is missing is empty. Asked are, by the line's first byte: `o` number and
//! place of refusal 1 or 2; `p` the row of kind 5 that a path finds first, and the values of all that it finds; any other: what extern
//! paths make of a full name. Of options 4,608 bytes at most are read. A line that differs is printed.
#![tactic(auto)]

use base::refusal::{Refusal, Returned};
use options::{Kind, Options};
use path::Values;
use std::rt::Files;
use std::{fs, io};
use writer::Text;

fn check(options: &[u8]) -> Result<(), Refusal> {
    options::check::check(options)?;
    extern_checks::check(&Options::new(options))
}

/// Writes a number; one over `u32::MAX` as `u32::MAX`.
fn put_count(text: &mut Text<'_>, count: usize) {
    text.put_number(u32::try_from(count).unwrap_or(u32::MAX));
}

/// Number and place of refusal 1 or 2.
fn put_refusal(text: &mut Text<'_>, options: &[u8]) {
    let returned = Returned::from(check(options).map(|()| 0));
    text.put_number(returned.number);
    text.put(b" ");
    put_count(text, returned.place);
}

/// The values of all rows that a path finds, with a comma before each that stands behind something.
fn put_values(text: &mut Text<'_>, options: &Options<'_>, path: &[u8]) {
    let start = text.length;
    for value in Values::new(options, Kind::TypeAttribute, path) {
        text.put_if(text.length > start, b",");
        text.put(value);
    }
}

/// The first row that a path finds, and the values of all.
fn put_found(text: &mut Text<'_>, options: &Options<'_>, path: &[u8]) {
    let Some(first) = path::get_first(options, Kind::TypeAttribute, path) else {
        return text.put(b"- -");
    };
    put_count(text, first);
    text.put(b" ");
    put_values(text, options, path);
}

/// What extern paths make of a full name.
fn put_extern(text: &mut Text<'_>, options: &Options<'_>, name: &[u8]) {
    if extern_checks::check(options).is_err() {
        return text.put(b"refused");
    }
    if !extern_paths::resolve::takes(options, name) {
        return text.put(b"-");
    }
    extern_paths::resolve::resolve_ident(text, options, name);
}

fn put_answer(text: &mut Text<'_>, asked: Option<&u8>, options: &[u8], name: &[u8]) {
    match asked {
        Some(b'o') => put_refusal(text, options),
        Some(b'p') => put_found(text, &Options::new(options), name),
        _ => put_extern(text, &Options::new(options), name),
    }
}

fn holds(line: &[u8]) -> bool {
    let mut parts = line.splitn(4, |byte| *byte == b'\t').skip(1);
    let options = parts.next().unwrap_or(&[]);
    let name = parts.next().unwrap_or(&[]);
    let answer = parts.next().unwrap_or(&[]);
    let mut room = [0u8; 4608];
    let options = cases::decode_hex(options, &mut room);
    let mut buffer = [0u8; 4096];
    let mut text = Text::new(&mut buffer);
    put_answer(&mut text, line.first(), options, name);
    let end = text.length;
    buffer.get(..end) == Some(answer)
}

fn run(rt: &(impl Files + AllocGlobal + Print), path: &str) -> io::Result<()> {
    let list = fs::read(rt, path)?;
    let tally = cases::compare_lines(&mut io::writer(rt), &list, holds)?;
    println!(rt; "{}", tally.at_most(cases::MOST))
}

fn main(rt: HostRuntime) -> io::Result<()> {
    run(&rt, "options.txt")?;
    run(&rt, "paths.txt")?;
    run(&rt, "extern.txt")
}
