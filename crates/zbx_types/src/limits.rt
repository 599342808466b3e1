//! Limits that several crates share (this project's own).

/// The most bytes of a configuration document, 16 MiB.
pub const LONGEST_TEXT: usize = 16_777_216;

/// The most bytes of a value, and of a parameter or a text of a preprocessing step after macros.
pub const LONGEST_VALUE: usize = 65_535;

/// The most bytes of an item's key.
pub const LONGEST_KEY: usize = 2_048;

/// The most bytes of an expression.
pub const LONGEST_EXPRESSION: usize = 4_096;

/// The most bytes of the name of a host or template.
pub const LONGEST_NAME: usize = 128;

/// The most bytes of the title of a trigger after macros, and of the name of its events.
pub const LONGEST_TITLE: usize = 2_048;

/// The most connections at once.
pub const MOST_CONNECTIONS: usize = 128;

/// The most seconds of a range of values and of a shift: 31 days.
pub const LONGEST_RANGE: u32 = 2_678_400;
