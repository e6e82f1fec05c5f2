//! How much of a connection is read and held (this project's own).

/// How many bytes a head has at the most, with the empty lines before it and the one behind it.
pub const HEAD_BYTES: usize = 16_384;

/// For how many fields of a head there is room: more than so many bytes can hold.
pub const FIELD_ROOM: usize = 8_192;

/// How many digits a Content-Length has at the most.
pub const LENGTH_DIGITS: usize = 19;

/// How many bytes a body has at the most.
pub const BODY_BYTES: usize = 65_536;

/// How many bytes are held at the most: a head and a body.
pub const HELD_BYTES: usize = HEAD_BYTES + BODY_BYTES;

/// How many bytes one read gives at the most.
pub const READ_BYTES: usize = 4_096;
