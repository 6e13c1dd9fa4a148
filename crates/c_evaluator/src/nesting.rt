//! How deep an evaluation may be nested. It recurses on the stack of the host, so that too deep a nesting is want of memory.
//!
//! What is open at a place counts by the part of the stack that it takes at most, in units of 128 bytes: an operator of
//! arithmetic 1; an index, `&&`, `||`, a block, an `if` and a `while` 2; a `for` 3; a call 5.

/// What an operator of arithmetic counts that is open.
pub const OPEN_OPERATOR: u32 = 1;
/// What an index, `&&`, `||`, a block, an `if` or a loop counts that is open.
pub const OPEN_PART: u32 = 2;
/// What a `for` counts more than another loop.
pub const OPEN_FOR: u32 = 1;
/// What a call counts that is open.
pub const OPEN_CALL: u32 = 5;
/// How much may be open: less than 6 MiB of the stack.
pub const MAX_OPEN: u32 = 48_000;
