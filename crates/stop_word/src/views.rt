//! What a seat knows of the stop word.
use std::collections::LinkedList;

/// What a seat knows of the stop word. It exists in proofs alone, and no value of it is made.
pub struct View {
    /// The numbers that it has marked, in order.
    pub marks: LinkedList<u64>,
    /// The least number that it has marked or been shown.
    pub least: u64,
    /// Its parts, of eight for all seats.
    pub parts: u64,
}
