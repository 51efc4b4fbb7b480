//! A piece of a text, and what follows it.

/// The first piece of a text, and what follows it.
#[derive(Clone, Copy)]
pub struct PieceCut<'a> {
    /// The piece, which begins at a line and ends with one.
    pub piece: &'a [u8],
    /// What follows it.
    pub rest: &'a [u8],
    /// The number of lines of the piece.
    pub lines: usize,
}
