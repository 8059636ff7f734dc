//! Reads sets with recorded answers and compares. sets.bin is a row of commands of five little-endian 16-bit numbers; the first says
//! what is done:
//! 0: a new set, with no bytes;
//! 1, a, b: the b bytes that follow are added to the set a times;
//! 2, a, b, c: the first a bytes of the set have refusal b at place c (0 and 0: none);
//! 3, a, b, c, d: with the byte b at a, the set has refusal c at place d.
//! The number of a command whose answer differs is printed. What is missing of a last command that is cut short is 0.
#![tactic(auto)]

ghost use Rattle.std.specs.Prelude.{◌<◌, length, IfSome};
ghost use Rattle.std.specs.Iterator.{at_most};

use base::refusal::Returned;
use cases::Tally;
use std::io::Write;
use std::{fs, io};

/// How many bytes of a set are kept.
const ROOM: usize = 40960;

/// How many bytes a command has, without those that it adds.
const HEAD: usize = 10;

/// What is done to the set, or asked of it. An answer without a refusal has number 0, at any place.
#[derive(Clone, Copy)]
enum Command<'a> {
    New,
    Add {
        bytes: &'a [u8],
        times: u16,
    },
    Ask {
        len: usize,
        answer: Returned,
    },
    AskChanged {
        at: usize,
        byte: u8,
        answer: Returned,
    },
}

/// The commands that are left.
#[derive(Drop)]
struct Commands<'a> {
    bytes: &'a [u8],
}

impl<'a> Iterator for Commands<'a> {
    type Item = Command<'a>;

    ghost remaining = { λ s. at_most (length s.bytes.now) };

    fn next(&mut self) -> Option<Command<'a>> {
        let (head, rest) = split_head(self.bytes)?;
        let [kind, a, b, c, d] = words_of(&head);
        let added = if kind == 1 { usize::from(b) } else { 0 };
        let (bytes, rest) = rest.split_at(added.min(rest.len()));
        self.bytes = rest;
        Some(match kind {
            0 => Command::New,
            1 => Command::Add { bytes, times: a },
            2 => Command::Ask {
                len: usize::from(a),
                answer: Returned {
                    number: u32::from(b),
                    place: usize::from(c),
                },
            },
            _ => Command::AskChanged {
                at: usize::from(a),
                byte: head[4],
                answer: Returned {
                    number: u32::from(c),
                    place: usize::from(d),
                },
            },
        })
    }
}

/// The head of the first command, 0 where it is cut short, and what is behind it.
fn split_head(bytes: &[u8]) -> Option<([u8; HEAD], &[u8])>
    ensures { IfSome result (λ r. length r.1.now < length bytes.now) }
{
    if bytes.is_empty() {
        return None;
    }
    let (front, rest) = bytes.split_at(HEAD.min(bytes.len()));
    let mut head = [0u8; HEAD];
    head[..front.len()].copy_from_slice(front);
    Some((head, rest))
}

fn words_of(head: &[u8; HEAD]) -> [u16; 5] {
    let word = |k: usize| u16::from_le_bytes([head[k], head[k + 1]]);
    [word(0), word(2), word(4), word(6), word(8)]
}

/// The set that the commands make. `len` counts the bytes too that are not kept.
#[derive(Drop)]
struct Set {
    kept: [u8; ROOM],
    len: usize,
}

impl Set {
    /// Adds the bytes, and keeps those for which there is room.
    fn add(&mut self, bytes: &[u8]) {
        if let Some(room) = self.kept.get_mut(self.len..) {
            let n = bytes.len().min(room.len());
            room[..n].copy_from_slice(&bytes[..n]);
        }
        self.len = self.len.saturating_add(bytes.len());
    }
}

/// Is this the set's answer?
fn is_answered(set: &[u8], answer: Returned) -> bool {
    match limits::read_set(set) {
        Ok(()) => answer.number == 0,
        Err(refusal) => Returned::from(Err(refusal)) == answer,
    }
}

/// Is this the answer of the set with that byte? The set stays as it is.
// Not one expression: the byte is put in and put back around the answer.
fn answers_changed(set: &mut [u8], at: usize, byte: u8, answer: Returned) -> bool {
    if at >= set.len() {
        return false;
    }
    let old = set[at];
    set[at] = byte;
    let same = is_answered(set, answer);
    set[at] = old;
    same
}

/// Carries a command out. Where it asks something, the result says whether the answer is the recorded one.
fn apply(set: &mut Set, command: Command<'_>) -> Option<bool> {
    match command {
        Command::New => {
            set.len = 0;
            None
        }
        Command::Add { bytes, times } => {
            for _ in 0..times {
                set.add(bytes);
            }
            None
        }
        Command::Ask { len, answer } => {
            Some(len <= set.len && is_answered(&set.kept[..len.min(ROOM)], answer))
        }
        Command::AskChanged { at, byte, answer } => {
            let kept = set.len.min(ROOM);
            Some(answers_changed(&mut set.kept[..kept], at, byte, answer))
        }
    }
}

// Not by `cases::compare_all`, which takes an `Fn`: a command changes the set.
fn compare<W: Write>(out: &mut W, bytes: &[u8]) -> io::Result<Tally> {
    let mut set = Set {
        kept: [0; ROOM],
        len: 0,
    };
    let mut tally = Tally::new();
    for (number, command) in (Commands { bytes }).enumerate() {
        if let Some(same) = apply(&mut set, command) {
            tally.count(same);
            if !same {
                writeln!(out, "{number} differs")?;
            }
        }
    }
    Ok(tally)
}

fn main(rt: HostRuntime) -> io::Result<()> {
    let bytes = fs::read(&rt, "sets.bin")?;
    let tally = compare(&mut io::writer(&rt), &bytes)?;
    println!(rt; "{tally}")
}
