//! Compares unescaping and escaping with recorded answers of the Rust: unescape.txt has a bytes default in hex and its bytes in hex,
//! or `-` where it doesn't unescape; escape.txt has a text in hex, or `b` and bytes in hex, and what is written for it. A line is cut
//! at its first space, and of a part in hex 256 bytes at most are read. A line that differs is printed.
#![tactic(auto)]

use c_escaping::Unescape;
use cases::Tally;
use std::rt::Files;
use std::{fs, io};
use writer::Text;

/// Are these the bytes that the default stands for?
fn stands_for(default: &[u8], bytes: &[u8]) -> bool {
    let mut found = Unescape::new(default);
    bytes.iter().all(|byte| found.next() == Some(Ok(*byte))) && found.next().is_none()
}

/// The two parts of a line; without a space the second is empty.
fn parts_of(line: &[u8]) -> (&[u8], &[u8]) {
    let mut parts = line.splitn(2, |byte| *byte == b' ');
    let first = parts.next().unwrap_or(&[]);
    (first, parts.next().unwrap_or(&[]))
}

/// A line of unescape.txt.
fn is_unescaped(line: &[u8]) -> bool {
    let (default, bytes) = parts_of(line);
    let mut room = [0u8; 256];
    let default = cases::decode_hex(default, &mut room);
    if bytes == b"-".as_slice() {
        return !c_escaping::unescapes(default);
    }
    let mut room = [0u8; 256];
    stands_for(default, cases::decode_hex(bytes, &mut room))
}

fn escape_bytes(text: &mut Text<'_>, bytes: &[u8]) {
    for &byte in bytes {
        literal::escape_byte(text, byte);
    }
}

/// A line of escape.txt.
fn is_escaped(line: &[u8]) -> bool {
    let (given, want) = parts_of(line);
    let mut room = [0u8; 256];
    let mut buffer = [0u8; 4096];
    let mut text = Text::new(&mut buffer);
    match given.strip_prefix(b"b") {
        Some(bytes) => escape_bytes(&mut text, cases::decode_hex(bytes, &mut room)),
        None => literal::escape_text(&mut text, cases::decode_hex(given, &mut room)),
    }
    let end = text.length;
    buffer.get(..end) == Some(want)
}

/// Reads a list, and compares its lines.
fn compare<F: Fn(&[u8]) -> bool + Drop>(
    rt: &(impl Files + AllocGlobal + Print),
    path: &str,
    holds: F,
) -> io::Result<Tally>
    requires callable { F.IsAlwaysCallable holds }
{
    let list = fs::read(rt, path)?;
    cases::compare_lines(&mut io::writer(rt), &list, holds)
}

fn main(rt: HostRuntime) -> io::Result<()> {
    let unescaped = compare(&rt, "unescape.txt", is_unescaped)?;
    let escaped = compare(&rt, "escape.txt", is_escaped)?;
    let tally = unescaped.plus(escaped).at_most(cases::MOST);
    println!(rt; "{tally}")
}
