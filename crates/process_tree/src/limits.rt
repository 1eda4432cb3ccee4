// The limits of names, steps and trees.

/// How many bytes a name may have.
pub const MOST_NAME_BYTES: usize = 32;

/// How many steps a process may have.
pub const MOST_STEPS: usize = 256;

/// How many choices may be open at once.
pub const MOST_NESTING: usize = 16;

/// How many alternatives a choice has at least.
pub const LEAST_ALTERNATIVES: usize = 2;

/// How many alternatives a choice has at most.
pub const MOST_ALTERNATIVES: usize = 8;

/// The greatest amount; the least one is its negation.
pub const MOST_AMOUNT: i64 = 1000000000;

/// How many tries a step or an undo may have.
pub const MOST_TRIES: u8 = 64;

/// How many tries a plain gate may be told to refuse.
pub const MOST_REFUSALS: u8 = 99;

/// How many tries a step or an undo has where nothing else is said.
pub const DEFAULT_TRIES: u8 = 3;
