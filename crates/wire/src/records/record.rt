//! One record of a message.
ghost use Rattle.std.specs.Prelude.{◌+◌, ◌<◌, ◌^◌};
ghost use Rattle.wire.specs.Value.{size_of};

/// The value of a record, by its wire type, of those that the encoding's document names: a varint, 64 bits, a string of
/// bytes behind its length, or 32 bits. Of the last three the bytes.
#[derive(Clone, Copy)]
pub enum Value<'a> {
    Varint(u64),
    I64(&'a [u8]),
    Len(&'a [u8]),
    I32(&'a [u8]),
}

/// A record of a message.
#[derive(Clone, Copy)]
pub struct Record<'a> {
    /// Where its key starts.
    pub key: usize,
    /// Its field number, 1 or more.
    pub number: u64,
    pub value: Value<'a>,
    /// Where its value starts: of a string of bytes behind the length.
    pub start: usize,
    ghost in_range: { start + size_of value < 2 ^ 64 },
}

/// A record that can't be read.
#[derive(Clone, Copy, Debug, PartialEq, Eq)]
pub struct Fault {
    /// Where its key starts.
    pub key: usize,
}
