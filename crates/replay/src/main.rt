//! Replays recorded answers: for each case of answers.bin and refused.bin, what the program generate prints for its set and
//! options is compared with the recorded output. A pack is eight bytes, then for each case three little-endian 32-bit lengths
//! (set, options, output) and the bytes of the three. The index of a case that differs is printed.
#![tactic(auto)]

ghost use Rattle.std.specs.Prelude.{◌<◌, ◌≤◌, length, IfSome};
ghost use Rattle.std.specs.Iterator.{at_most};

use base::refusal::Refusal;
use cases::Tally;
use itoa::Buffer;
use limits::limit::MAX_FILES;
use std::io::Write;
use std::rt::Files;
use std::{fs, io};
use text_call::MAX_TEXT;

/// Limit 2, and one more, which is refused.
const FILES: usize = MAX_FILES + 1;

/// The bytes before the first case.
const MAGIC: usize = 8;

/// What generate is given, and what it prints.
#[derive(Clone, Copy)]
struct Case<'a> {
    set: &'a [u8],
    options: &'a [u8],
    output: &'a [u8],
}

/// The cases that are left.
#[derive(Drop)]
struct Cases<'a> {
    bytes: &'a [u8],
}

/// The 32-bit length at the front, cut to 24 bits, as no part of a case is longer, and what is behind it.
fn split_length(bytes: &[u8]) -> Option<(usize, &[u8])>
    ensures { IfSome result (λ r. length r.1.now < length bytes.now) }
{
    let ([low, middle, high, _], rest) = bytes.split_first_chunk::<4>()?;
    let length = u32::from_le_bytes([*low, *middle, *high, 0]);
    // a cast: a `usize` has 64 bits, so nothing is lost, and it has no `From` of a `u32`
    Some((length as usize, rest))
}

/// The first n bytes, or as many as there are, and the rest.
fn split(bytes: &[u8], n: usize) -> (&[u8], &[u8])
    ensures { length result.1.now ≤ length bytes.now }
{
    bytes.split_at(n.min(bytes.len()))
}

impl<'a> Iterator for Cases<'a> {
    type Item = Case<'a>;

    ghost remaining = { λ s. at_most (length s.bytes.now) };

    fn next(&mut self) -> Option<Case<'a>> {
        let (set_length, rest) = split_length(self.bytes)?;
        let (options_length, rest) = split_length(rest)?;
        let (output_length, rest) = split_length(rest)?;
        let (set, rest) = split(rest, set_length);
        let (options, rest) = split(rest, options_length);
        let (output, rest) = split(rest, output_length);
        self.bytes = rest;
        Some(Case {
            set,
            options,
            output,
        })
    }
}

/// What is behind a number at the front of the output, if it is there.
fn behind_number(output: &[u8], number: u64) -> Option<&[u8]> {
    output.strip_prefix(Buffer::new().format(number).as_bytes())
}

/// What is behind the line of a refusal.
fn behind_refusal(output: &[u8], refusal: Refusal) -> Option<&[u8]> {
    let rest = output.strip_prefix(b"refused ")?;
    let rest = behind_number(rest, u64::from(refusal.number()))?;
    let rest = rest.strip_prefix(b" ")?;
    // a cast: a `u64` has no `From` of a `usize`
    behind_number(rest, refusal.place() as u64)?.strip_prefix(b"\n")
}

/// What is behind the line of a package, and a text.
fn behind_file<'a>(output: &'a [u8], package: &[u8], text: &[u8]) -> Option<&'a [u8]> {
    let rest = output.strip_prefix(b"//@ ")?;
    let shown = if package.is_empty() { b"-" } else { package };
    rest.strip_prefix(shown)?
        .strip_prefix(b"\n")?
        .strip_prefix(text)
}

/// Is the output what is printed for the set and the options?
fn is_printed(case: Case<'_>, text: &mut [u8]) -> Option<bool> {
    let mut rest = case.output;
    for file in 0..FILES {
        let length = match text_call::text(case.set, case.options, file, text) {
            Ok(length) => length,
            Err(Refusal::FileIndex { .. }) => return Some(rest.is_empty()),
            Err(refusal) => return Some(behind_refusal(rest, refusal)?.is_empty()),
        };
        let package = file_package::package_of(case.set, file);
        rest = behind_file(rest, package, text.get(..length)?)?;
    }
    None
}

// Not by `cases::compare_all`, which takes an `Fn`: a case's text is written into the lent buffer.
fn replay<W: Write>(out: &mut W, pack: &[u8], text: &mut [u8]) -> io::Result<Tally> {
    let (_, bytes) = split(pack, MAGIC);
    let mut tally = Tally::new();
    for (index, case) in (Cases { bytes }).enumerate() {
        let same = is_printed(case, text) == Some(true);
        tally.count(same);
        if !same {
            writeln!(out, "{index} differs")?;
        }
    }
    Ok(tally)
}

fn replay_pack(rt: &(impl Files + Alloc + Print), path: &str) -> io::Result<()> {
    let pack = fs::read(rt, path)?;
    let mut text = vec![in rt.alloc(); 0u8; MAX_TEXT]?;
    let tally = replay(&mut io::writer(rt), &pack, &mut text)?;
    println!(rt; "{path}: {tally}")
}

fn main(rt: HostRuntime) -> io::Result<()> {
    replay_pack(&rt, "answers.bin")?;
    replay_pack(&rt, "refused.bin")
}
