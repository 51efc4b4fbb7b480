//! Sets of processes that grow from one of them.

use numbered_log::ProcessId;
use std::alloc::{AllocError, Global};
use total_tables::{at, put, size};

/// A set of processes. What each member needs has to join too, so each waits for a turn.
#[derive(Drop)]
pub struct ProcessSet {
    /// For each process whether it is a member.
    is_member: Vec<bool>,
    count: u32,
    /// The members whose turn is still to come.
    due: Vec<ProcessId>,
}

impl ProcessSet {
    /// The empty set, among this number of processes.
    pub fn new(alloc: Global, processes: u32) -> Result<ProcessSet, AllocError> {
        Ok(ProcessSet {
            is_member: vec![in alloc; false; processes as usize]?,
            count: 0,
            due: Vec::new(alloc),
        })
    }

    /// Begins anew with this process alone.
    pub fn begin(&mut self, process: ProcessId) -> Result<(), AllocError> {
        for number in 0..size(self.is_member.as_slice()) {
            put(self.is_member.as_mut_slice(), number, false);
        }
        self.count = 0;
        self.due.clear();
        self.join(process)
    }

    /// The number of members.
    pub fn count(&self) -> u32 {
        self.count
    }

    /// Returns whether the process is a member.
    #[inline(always)]
    pub fn has(&self, process: ProcessId) -> bool {
        at(self.is_member.as_slice(), process.number(), false)
    }

    /// Has the process join, and wait for its turn, unless it is a member.
    pub fn join(&mut self, process: ProcessId) -> Result<(), AllocError> {
        if !at(self.is_member.as_slice(), process.number(), true) {
            put(self.is_member.as_mut_slice(), process.number(), true);
            self.count = self.count.wrapping_add(1);
            self.due.push(process)?;
        }
        Ok(())
    }

    /// Takes the member that joined last among those whose turn is still to come; none if all had theirs.
    pub fn take_due(&mut self) -> Option<ProcessId> {
        self.due.pop()
    }
}
