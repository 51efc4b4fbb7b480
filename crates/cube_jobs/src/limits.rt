//! The limits of a search.

/// Maximum number of workers. Contracts of the queue, the stop word, the dealing machine and the ledger say 8 as a number, and change with it.
pub const MAX_WORKERS: u32 = 8;

/// Maximum depth of the first tree. A full tree of this depth has `MAX_CUBES` leaves.
pub const MAX_SPLIT: u32 = 10;

/// Maximum number of conflicts in a cube before it stays open.
pub const MAX_BUDGET: u64 = 1_000_000_000;

/// Maximum number of rounds.
pub const MAX_ROUNDS: u32 = 4;

/// Maximum number of cubes that are searched together: a tree has no more leaves.
pub const MAX_CUBES: u32 = 1024;
