//! The eleven prost types.

/// What stands in Rust for the path of a prost type.
#[derive(Clone, Copy)]
pub enum Value {
    /// The value of the row of kind `ProstTypes`.
    Own,
    /// This type.
    Plain(&'static [u8]),
    /// The prost path and this, which begins with a `::`.
    InProst(&'static [u8]),
}

/// A prost type: its path, and what stands for that in Rust.
#[derive(Clone, Copy)]
pub struct ProstType {
    pub path: &'static [u8],
    pub value: Value,
}

/// The prost types, as prost-build lists them.
pub static PROST_TYPES: [ProstType; 11] = [
    ProstType {
        path: b".google.protobuf",
        value: Value::Own,
    },
    ProstType {
        path: b".google.protobuf.BoolValue",
        value: Value::Plain(b"bool"),
    },
    ProstType {
        path: b".google.protobuf.BytesValue",
        value: Value::InProst(b"::alloc::vec::Vec<u8>"),
    },
    ProstType {
        path: b".google.protobuf.DoubleValue",
        value: Value::Plain(b"f64"),
    },
    ProstType {
        path: b".google.protobuf.Empty",
        value: Value::Plain(b"()"),
    },
    ProstType {
        path: b".google.protobuf.FloatValue",
        value: Value::Plain(b"f32"),
    },
    ProstType {
        path: b".google.protobuf.Int32Value",
        value: Value::Plain(b"i32"),
    },
    ProstType {
        path: b".google.protobuf.Int64Value",
        value: Value::Plain(b"i64"),
    },
    ProstType {
        path: b".google.protobuf.StringValue",
        value: Value::InProst(b"::alloc::string::String"),
    },
    ProstType {
        path: b".google.protobuf.UInt32Value",
        value: Value::Plain(b"u32"),
    },
    ProstType {
        path: b".google.protobuf.UInt64Value",
        value: Value::Plain(b"u64"),
    },
];
