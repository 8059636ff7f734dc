//! Boxes, Copy and Eq of sets of fields. First sets as large as the limits allow, of which it prints how many fields are boxed, how
//! many messages can derive Copy, and how many Eq. Then each set of standard input: 64 fields as five columns of 64 bytes (owner,
//! target, type, label, boxed setting), of which it prints a digit for each field, and for each of the first 64 messages twice.
//! oracle/graph_cases made these sets; what is to be printed of them is the Rust's answer, and of the large sets that of cases.py.
#![tactic(auto)]

ghost use Rattle.std.specs.Prelude.{◌≤◌, length, IfOk};

use message_graph::{Field, Index, LABEL_REPEATED, MESSAGES, NO_FIELD, TYPE_GROUP, TYPE_MESSAGE};
use std::io;
use std::io::{Read, Write};

// How many fields a message of a large set has.
const FIELDS: usize = 8;

// How many fields a large set has, and a set of the input.
const LARGE: usize = MESSAGES * FIELDS;

const SMALL: usize = 64;

// How many bytes a set of the input has.
const SET: usize = 5 * SMALL;

// How many sets the input has; what is behind them is not read.
const SETS: usize = 250;

// The other types of the sets, and their label, by descriptor.proto's numbers. The crate descriptor has the label alone, as a `u32`.
const TYPE_FLOAT: u8 = 2;

const TYPE_INT32: u8 = 5;

const TYPE_STRING: u8 = 9;

const LABEL_OPTIONAL: u8 = 1;

// The messages of a large set lie in a row, with eight fields each. Each field leads to the next message, and those of the last
// message to the first.
#[derive(Clone, Copy)]
struct LargeSet {
    kind: u8,
    label: u8,
    // The same of the last message's fields.
    last_kind: u8,
    last_label: u8,
    // Whether the first field of message 100 has a boxed setting.
    boxed: bool,
}

// A ring of messages.
const RING: LargeSet = LargeSet {
    kind: TYPE_MESSAGE,
    label: LABEL_OPTIONAL,
    last_kind: TYPE_MESSAGE,
    last_label: LABEL_OPTIONAL,
    boxed: false,
};

const LARGE_SETS: [LargeSet; 8] = [
    RING,
    LargeSet {
        last_kind: TYPE_INT32,
        ..RING
    },
    LargeSet {
        last_kind: TYPE_FLOAT,
        ..RING
    },
    LargeSet {
        last_kind: TYPE_STRING,
        ..RING
    },
    LargeSet {
        kind: TYPE_GROUP,
        last_kind: TYPE_GROUP,
        ..RING
    },
    LargeSet {
        label: LABEL_REPEATED,
        last_label: LABEL_REPEATED,
        ..RING
    },
    LargeSet {
        last_kind: TYPE_INT32,
        last_label: LABEL_REPEATED,
        ..RING
    },
    LargeSet {
        last_kind: TYPE_INT32,
        boxed: true,
        ..RING
    },
];

// A field of a message of the set.
fn large_field(set: LargeSet, message: Index) -> Field {
    let is_last = message == Index::MAX;
    Field {
        owner: message,
        target: message.wrapping_add(1),
        kind: if is_last { set.last_kind } else { set.kind },
        label: if is_last { set.last_label } else { set.label },
        boxed: false,
    }
}

// How many are true?
fn count(flags: &[bool]) -> usize {
    flags.iter().filter(|&&flag| flag).count()
}

fn large<W: Write>(out: &mut W, set: LargeSet) -> io::Result<()> {
    let mut fields = [NO_FIELD; LARGE];
    for (message, own) in (0..=Index::MAX).zip(fields.chunks_mut(FIELDS)) {
        own.fill(large_field(set, message));
    }
    fields[100 * FIELDS].boxed = set.boxed;
    let mut boxed = [false; LARGE];
    let can = derives::can_derive(&fields, &mut boxed);
    writeln!(
        out,
        "{} {} {}",
        count(&boxed),
        count(&can.copy),
        count(&can.eq)
    )
}

// A digit for each of the first 64.
fn put_digits<W: Write>(out: &mut W, flags: &[bool], end: &[u8]) -> io::Result<()> {
    let mut line = [b'0'; SMALL];
    for (digit, flag) in line.iter_mut().zip(flags) {
        if *flag {
            *digit = b'1';
        }
    }
    out.write_all(&line)?;
    out.write_all(end)
}

// The answers of one set of the input.
fn replay<W: Write>(out: &mut W, set: &[u8]) -> io::Result<()> {
    let column = |k: usize, i: usize| set.get(k * SMALL + i).copied().unwrap_or(0);
    let mut fields = [NO_FIELD; SMALL];
    for (i, field) in fields.iter_mut().enumerate() {
        *field = Field {
            owner: column(0, i),
            target: column(1, i),
            kind: column(2, i),
            label: column(3, i),
            boxed: column(4, i) == 1,
        };
    }
    let mut boxed = [false; SMALL];
    let can = derives::can_derive(&fields, &mut boxed);
    put_digits(out, &boxed, b" ")?;
    put_digits(out, &can.copy, b" ")?;
    put_digits(out, &can.eq, b"\n")
}

// Reads until the buffer is full or the input ends, and returns how many bytes it read.
fn read_full<R: Read>(input: &mut R, buffer: &mut [u8]) -> io::Result<usize>
    ensures { IfOk result (λ n. n ≤ length buffer.new) }
{
    let mut n = 0;
    while n < buffer.len() {
        let k = input.read(&mut buffer[n..])?;
        if k == 0 {
            break;
        }
        n += k;
    }
    Ok(n)
}

// The next set of the input, if there is one; of a set that is cut, what is missing is 0. It is read column by column.
fn read_set<R: Read>(input: &mut R) -> io::Result<Option<[u8; SET]>> {
    let mut set = [0u8; SET];
    let (first, others) = set.split_at_mut(SMALL);
    if read_full(input, first)? == 0 {
        return Ok(None);
    }
    for column in others.chunks_mut(SMALL) {
        read_full(input, column)?;
    }
    Ok(Some(set))
}

// Each set is answered before the next is read.
fn replay_all<R: Read, W: Write>(input: &mut R, out: &mut W) -> io::Result<()> {
    for _ in 0..SETS {
        let Some(set) = read_set(input)? else {
            break;
        };
        replay(out, &set)?;
    }
    Ok(())
}

fn main(rt: HostRuntime) -> io::Result<()> {
    let mut out = io::writer(&rt);
    for set in LARGE_SETS {
        large(&mut out, set)?;
    }
    replay_all(&mut rt.reader(), &mut out)
}
