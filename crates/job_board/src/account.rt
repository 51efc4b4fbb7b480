//! What a board's seats have done.

/// The numbers of jobs that were put, taken and settled, and of results that were gathered, stop tickets left out.
#[derive(Clone, Copy)]
pub struct Account {
    /// The number of jobs that were put.
    pub put: u32,
    /// The number of jobs that the workers took.
    pub taken: u32,
    /// The number of results that the workers gave.
    pub given: u32,
    /// The number of results that were gathered.
    pub gathered: u32,
}
