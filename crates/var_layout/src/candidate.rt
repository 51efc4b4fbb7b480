//! Candidates: from where a reading operation may have its value, and which writer may be the last one.

/// A possible origin of the value of a reading operation.
#[derive(Clone, Copy)]
pub enum Candidate {
    /// It is the initial value of the location.
    InitialValue,
    /// The operation of this number left it.
    Writer(usize),
}

/// A candidate of a reading operation, and the variable that says that the operation reads from there.
#[derive(Clone, Copy)]
pub struct ReadsFromChoice {
    pub candidate: Candidate,
    pub variable: u32,
}

/// A writer of a location that leaves its final value, and the variable that says that it is the last one.
#[derive(Clone, Copy)]
pub struct FinalChoice {
    pub writer: usize,
    pub variable: u32,
}
