//! What a seat knows of a channel.
use std::collections::LinkedList;

/// What a seat knows of a channel between one seat and many workers. It exists in proofs alone, and no value of it is made.
pub enum ChannelView<T> {
    /// The seat that puts jobs, or that gathers results: what it put or got, how many workers were made, and the lists of those that
    /// were joined, in the order of their numbers.
    Single {
        list: LinkedList<T>,
        made: u32,
        joined: LinkedList<LinkedList<T>>,
    },
    /// A worker: its number, and what it took or gave.
    Worker {
        number: u32,
        list: LinkedList<T>,
    },
    /// A seat that was joined into another.
    Spent,
}
