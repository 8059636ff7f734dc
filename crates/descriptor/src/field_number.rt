//! The numbers of fields of descriptor.proto by which a set is walked and counted.

pub const SET_FILE: u64 = 1;

pub const FILE_PACKAGE: u64 = 2;

pub const FILE_MESSAGE_TYPE: u64 = 4;

pub const FILE_ENUM_TYPE: u64 = 5;

pub const MESSAGE_FIELD: u64 = 2;

pub const MESSAGE_NESTED_TYPE: u64 = 3;

pub const MESSAGE_ENUM_TYPE: u64 = 4;

pub const MESSAGE_ONEOF_DECL: u64 = 8;

pub const FIELD_DEFAULT_VALUE: u64 = 7;

pub const ENUM_VALUE: u64 = 2;

/// Of a message, a field, a oneof, an enum and a value.
pub const NAME: u64 = 1;
