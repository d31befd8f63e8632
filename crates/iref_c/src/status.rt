//! The statuses that the calls return.

/// It is done.
pub const OK: u32 = 0;
/// The first text is not in its rule.
pub const INVALID: u32 = 1;
/// The first text is in its rule, and the second is not.
pub const SECOND_INVALID: u32 = 2;
/// The buffer is too short.
pub const SHORT: u32 = 3;
/// Memory was refused, or a length cannot be counted.
pub const MEMORY: u32 = 4;
/// There is nothing that can be written.
pub const NONE: u32 = 5;
