//! Operations by numbers.

/// An operation: its process, counted from 0 in the trace, and its place there, counted from 1.
#[derive(Clone, Copy, Debug, PartialEq, Eq, Hash)]
pub struct OperationPlace {
    pub process: u32,
    pub place: u32,
}
