//! The limits of a trace.

ghost use Rattle.std.specs.Prelude.{◌≡◌};
ghost use Rattle.trace_semantics.specs.Limits as limits;

/// Maximum number of processes.
pub const MAX_PROCESSES: usize = 64;

/// Maximum length of a name, in bytes.
pub const MAX_NAME: usize = 32;

/// Maximum number of operations, and so of names of a schedule, in versions 1 and 2. Of each pair of constants here, the one that begins with `SMALL`
/// is that of these versions, and the other is that of version 3.
pub const SMALL_OPERATIONS: usize = 4096;

/// Maximum number of operations in version 3, which each trace keeps.
pub const MAX_OPERATIONS: usize = 1_048_576;

/// Maximum number of locations that are named, in the same way.
pub const SMALL_LOCATIONS: usize = 4096;

/// The same in version 3.
pub const MAX_LOCATIONS: usize = 65_536;

/// Maximum number of pairs of operations of which one is known to stand before the other, in the same way.
pub const SMALL_PAIRS: usize = 4096;

/// The same in version 3.
pub const MAX_PAIRS: usize = 4_194_304;

/// Highest place of an operation in its process that a text can name, in the same way.
pub const SMALL_PLACE: u64 = 65_535;

/// The same in version 3. It is above the number of operations of any trace.
pub const MAX_PLACE: u64 = 4_294_967_295;

/// What a text has room for, by its version.
#[derive(Clone, Copy)]
pub enum Limits {
    /// The limits of versions 1 and 2.
    Small,
    /// The limits of version 3, which each trace keeps.
    Large,
}

impl Limits {
    /// Maximum number of operations, and so of names of a schedule.
    pub fn max_operations(self) -> usize
        ensures { result ≡ limits.max_operations self }
    {
        match self {
            Limits::Small => SMALL_OPERATIONS,
            Limits::Large => MAX_OPERATIONS,
        }
    }

    /// Maximum number of locations that are named.
    pub fn max_locations(self) -> usize
        ensures { result ≡ limits.max_locations self }
    {
        match self {
            Limits::Small => SMALL_LOCATIONS,
            Limits::Large => MAX_LOCATIONS,
        }
    }

    /// Maximum number of pairs of operations of which one is known to stand before the other.
    pub fn max_pairs(self) -> usize
        ensures { result ≡ limits.max_pairs self }
    {
        match self {
            Limits::Small => SMALL_PAIRS,
            Limits::Large => MAX_PAIRS,
        }
    }

    /// Highest place of an operation in its process that a text can name.
    pub fn max_place(self) -> u64
        ensures { result ≡ limits.max_place self }
    {
        match self {
            Limits::Small => SMALL_PLACE,
            Limits::Large => MAX_PLACE,
        }
    }
}
