//! How large a file, a program, a script and a run may be.

/// The longest source file, in bytes.
pub const MAX_SOURCE_BYTES: u64 = 262_144;

/// The longest script file, in bytes.
pub const MAX_SCRIPT_BYTES: u64 = 1_048_576;

/// The longest input file, in bytes.
pub const MAX_INPUT_BYTES: u64 = 65_536;

/// The longest image file, in bytes.
pub const MAX_IMAGE_BYTES: u64 = 1_048_576;

/// The longest name, in bytes.
pub const MAX_NAME_BYTES: usize = 31;

/// How many levels of nesting may be open at one place of a source.
pub const MAX_NESTING: u32 = 64;

/// How many binary operators one expression may have.
pub const MAX_BINARY_OPERATORS: u32 = 64;

/// How many objects and functions a source may declare together.
pub const MAX_GLOBALS: u32 = 1_024;

/// How many locals a function may have, its parameters included.
pub const MAX_LOCALS: u32 = 256;

/// How many parameters a function may have.
pub const MAX_PARAMETERS: u32 = 6;

/// The longest array, in elements. The shortest has one element.
pub const MAX_ARRAY_LENGTH: u32 = 65_536;

/// How many changes a script may make.
pub const MAX_CHANGES: u32 = 4_096;

/// How many bytes all changes of a script may write together.
pub const MAX_CHANGE_BYTES: u32 = 65_536;

/// How many slots a script may save blocks in.
pub const SAVE_SLOTS: u32 = 16;

/// The largest fuel of a run, in events.
pub const MAX_FUEL: u64 = 33_554_432;

/// How many lines the tree's cache holds.
pub const TREE_LINES: usize = 128;

/// How many lines the log's cache holds.
pub const LOG_LINES: usize = 32;

/// How many released bytes, once held, are sent in one piece. Fewer are held after each release.
pub const MAX_HELD_BYTES: usize = 256;
