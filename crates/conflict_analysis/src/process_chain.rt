//! Chains in which one process leads to the next.

use numbered_log::{NO_NUMBER, ProcessId};
use std::alloc::{AllocError, Global};
use total_tables::{at, piece, put, size};

/// A chain from process to process, with a link of each. It is followed until a process comes again, and the ring is what lies behind that.
#[derive(Drop)]
pub struct ProcessChain<T: Copy> {
    /// For each process the number of its link, or `NO_NUMBER`.
    numbers: Vec<u32>,
    links: Vec<T>,
}

impl<T: Copy> ProcessChain<T> {
    /// The chain that has not begun, among this number of processes.
    pub fn new(alloc: Global, processes: u32) -> Result<ProcessChain<T>, AllocError> {
        Ok(ProcessChain {
            numbers: vec![in alloc; NO_NUMBER; processes as usize]?,
            links: Vec::new(alloc),
        })
    }

    /// Returns whether the chain has come to the process, or there is no such process.
    pub fn has(&self, process: ProcessId) -> bool {
        at(self.numbers.as_slice(), process.number(), 0) != NO_NUMBER
    }

    /// Adds the link of the process.
    pub fn add(&mut self, process: ProcessId, link: T) -> Result<(), AllocError> {
        let number = size(self.links.as_slice());
        put(self.numbers.as_mut_slice(), process.number(), number);
        self.links.push(link)?;
        Ok(())
    }

    /// The links from that of this process on, to which the last one leads.
    pub fn ring(&self, process: ProcessId) -> &[T] {
        let links = self.links.as_slice();
        let first = at(self.numbers.as_slice(), process.number(), 0);
        piece(links, first, size(links))
    }
}
