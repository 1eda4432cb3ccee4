// The limits of histories.

/// How many processes may be active at once.
pub const MOST_ACTIVE: usize = 256;

/// How many processes may start in one history.
pub const MOST_PROCESSES: usize = 4096;

/// How many acts and ends a history may have, those that its active processes may still need among them.
pub const MOST_ENTRIES: usize = 16384;

/// How many events a history within the limits has at most: a start for each process, and its entries.
pub const MOST_EVENTS: usize = 20480;
