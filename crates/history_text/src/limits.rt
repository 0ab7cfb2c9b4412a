//! The limits of the format, one constant each.

/// The longest input, in bytes.
pub const MAX_INPUT: usize = 67_108_864;

/// The longest line, in bytes, without its line feed. Blank lines have no limit.
pub const MAX_LINE: usize = 65_536;

/// The most events of a history.
pub const MAX_EVENTS: usize = 1_048_576;

/// The longest name of a register, in bytes of UTF-8. The shortest has one byte.
pub const MAX_NAME: usize = 255;
