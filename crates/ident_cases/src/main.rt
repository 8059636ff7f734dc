//! Runs the recorded conversions and compares: ident.txt has a name, its snake and its camel name on each line, strip.txt a
//! prefix, a name and what strip_enum_prefix gives.
#![tactic(auto)]

ghost use Rattle.std.specs.Prelude.{◌-◌, ◌≤◌, length};
ghost use Rattle.std.specs.Iterator.{at_most};

use cases::Tally;
use ident::text::{fill_snake, fill_upper_camel, put_stripped};
use std::rt::Files;
use std::{fs, io};
use writer::Text;

/// The cases that are left, of three words each.
#[derive(Drop)]
struct Cases<'a> {
    bytes: &'a [u8],
}

/// The first word, which a space, a newline or the end ends, and what is behind it.
fn split_word(bytes: &[u8]) -> (&[u8], &[u8])
    ensures { length result.1.now ≤ length bytes.now - 1 }
{
    let end = bytes.iter().position(|byte| matches!(byte, b' ' | b'\n'));
    let (word, rest) = bytes.split_at(end.unwrap_or(bytes.len()));
    (word, rest.get(1..).unwrap_or_default())
}

// A line end is like a space: a fourth word of a line begins the next case, and words that are missing come from the next line.
impl<'a> Iterator for Cases<'a> {
    type Item = (&'a [u8], &'a [u8], &'a [u8]);

    ghost remaining = { λ s. at_most (length s.bytes.now) };

    fn next(&mut self) -> Option<Self::Item> {
        if self.bytes.is_empty() {
            return None;
        }
        let (first, rest) = split_word(self.bytes);
        let (second, rest) = split_word(rest);
        let (third, rest) = split_word(rest);
        self.bytes = rest;
        Some((first, second, third))
    }
}

/// Is this the text, as far as the buffer has it?
fn is_text(buffer: &[u8], length: usize, want: &[u8]) -> bool {
    &buffer[..length.min(buffer.len())] == want
}

/// Is this what `fill` writes?
fn is_written<F: Fn(&mut [u8]) -> usize>(want: &[u8], fill: F) -> bool
    requires { F.IsAlwaysCallable fill }
{
    let mut buffer = [0u8; 256];
    let length = fill(&mut buffer);
    is_text(&buffer, length, want)
}

// A text is begun, written and measured: over a closure that is no shorter.
fn fill_stripped(buffer: &mut [u8], prefix: &[u8], name: &[u8]) -> usize {
    let mut text = Text::new(buffer);
    put_stripped(&mut text, prefix, name);
    text.length
}

/// Does the convert call give these two names, where it takes the name?
fn is_converted(name: &[u8], snake: &[u8], camel: &[u8]) -> bool {
    // the call itself, whose answer has a number and lengths, as the C interface
    let converted = ident::convert(name);
    converted.number != 0
        || is_text(&converted.snake, converted.snakelen, snake)
            && is_text(&converted.camel, converted.camellen, camel)
}

fn names_are(name: &[u8], snake: &[u8], camel: &[u8]) -> bool {
    is_written(snake, |buffer| fill_snake(buffer, name))
        && is_written(camel, |buffer| fill_upper_camel(buffer, name))
        && is_converted(name, snake, camel)
}

fn is_stripped(prefix: &[u8], name: &[u8], stripped: &[u8]) -> bool {
    is_written(stripped, |buffer| fill_stripped(buffer, prefix, name))
}

// Not by `cases::compare_all`, which prints the cases that differ.
fn run<F: Fn(&[u8], &[u8], &[u8]) -> bool + Drop>(
    rt: &(impl Files + Alloc + Print),
    path: &str,
    holds: F,
) -> io::Result<()>
    requires { F.IsAlwaysCallable holds }
{
    let list = fs::read(rt, path)?;
    let mut tally = Tally::new();
    for (first, second, third) in (Cases { bytes: &list }) {
        tally.count(holds(first, second, third));
    }
    println!(rt; "{tally}")
}

fn main(rt: HostRuntime) -> io::Result<()> {
    run(&rt, "ident.txt", names_are)?;
    run(&rt, "strip.txt", is_stripped)
}
