//! Runs of processes with store buffers, each of one write, as traces.

use crate::long_traces::drawn_numbers::DrawnNumbers;
use std::alloc::{AllocError, Global};
use total_tables::{at, put};

/// The processes, and as many locations; and the values.
const PROCESSES: u32 = 4;

const VALUES: u32 = 8;

/// A write that the memory may not have yet.
#[derive(Clone, Copy)]
struct BufferedWrite {
    is_waiting: bool,
    location: u32,
    value: u32,
}

/// No write.
const NO_WRITE: BufferedWrite = BufferedWrite {
    is_waiting: false,
    location: 0,
    value: 0,
};

/// An operation of the run.
#[derive(Clone, Copy)]
struct DrawnOperation {
    process: u32,
    reads: bool,
    location: u32,
    value: u32,
}

/// The part of a run that was drawn.
#[derive(Drop)]
struct BufferedRun {
    drawn: DrawnNumbers,
    memory: Vec<u32>,
    /// For each process its last write.
    buffers: Vec<BufferedWrite>,
}

impl BufferedRun {
    /// Has the memory take over what the process has written.
    fn flush(&mut self, process: u32) {
        let write = at(self.buffers.as_slice(), process, NO_WRITE);
        if write.is_waiting {
            put(self.memory.as_mut_slice(), write.location, write.value);
            put(self.buffers.as_mut_slice(), process, NO_WRITE);
        }
    }

    /// Draws the next operation.
    fn draw(&mut self) -> DrawnOperation {
        let process = self.drawn.small(PROCESSES);
        let location = self.drawn.small(PROCESSES);
        let keeps = self.drawn.small(2) == 0;
        let drawn = self.drawn.small(VALUES);
        let reads = self.drawn.small(2) == 0;
        if !keeps || !reads {
            self.flush(process);
        }
        let value = if reads {
            self.read(process, location)
        } else {
            drawn
        };
        if !reads {
            let write = BufferedWrite {
                is_waiting: true,
                location,
                value,
            };
            put(self.buffers.as_mut_slice(), process, write);
        }
        DrawnOperation {
            process,
            reads,
            location,
            value,
        }
    }

    /// What the process reads at the location.
    fn read(&self, process: u32, location: u32) -> u32 {
        let own = at(self.buffers.as_slice(), process, NO_WRITE);
        if own.is_waiting && own.location == location {
            return own.value;
        }
        at(self.memory.as_slice(), location, 0)
    }
}

/// The operations of the process in the run of this seed and number of operations, as lines.
fn push_process(
    alloc: Global,
    text: &mut String,
    seed: u64,
    count: u32,
    process: u32,
) -> Result<(), AllocError> {
    let mut run = BufferedRun {
        drawn: DrawnNumbers::new(seed),
        memory: vec![in alloc; 0; PROCESSES as usize]?,
        buffers: vec![in alloc; NO_WRITE; PROCESSES as usize]?,
    };
    for _ in 0..count {
        let DrawnOperation {
            process: own,
            reads,
            location,
            value,
        } = run.draw();
        if own == process {
            let letter = if reads { "R" } else { "W" };
            let line = format!(in alloc; "{letter} x{location} {value}\n")?;
            text.push_str(line.as_str())?;
        }
    }
    Ok(())
}

/// The trace of the run of this seed and number of operations.
pub fn buffered_run(alloc: Global, seed: u64, count: u32) -> Result<String, AllocError> {
    let mut text = String::new(alloc);
    text.push_str("vsc 1\n")?;
    for location in 0..PROCESSES {
        let line = format!(in alloc; "init x{location} 0\n")?;
        text.push_str(line.as_str())?;
    }
    for process in 0..PROCESSES {
        let line = format!(in alloc; "proc P{process}\n")?;
        text.push_str(line.as_str())?;
        push_process(alloc, &mut text, seed, count, process)?;
    }
    Ok(text)
}
