//! Operations by numbers.

/// An operation by numbers: that of its process, counted from 0, and its place there, counted from 1.
#[derive(Clone, Copy, Drop)]
pub struct OperationNumber {
    pub process: u16,
    pub place: u32,
}
