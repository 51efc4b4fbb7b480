//! Processes that wait for one another.
//!
//! Past the end of a table `at` reads as its last argument, and `put` does nothing; so arithmetic may wrap, and a wrong place makes no fault.

use crate::placing_walk::PlacingWalk;
use crate::waiting::Awaited;
use conflict_analysis::ProcessChain;
use numbered_log::{LocationId, NOBODY, NumberedLog, OperationId, ProcessId};
use order_propagation::Propagation;
use std::alloc::{AllocError, Global};
use total_tables::at;

/// A process of a chain in which each waits for the next.
#[derive(Clone, Copy)]
struct Link {
    /// Its next operation.
    waiting: OperationId,
    awaited: Awaited,
    /// The process that it waits for.
    next: ProcessId,
}

/// Processes of which each waits for the next, and the last for the first.
#[derive(Drop)]
struct WaitingRing {
    links: Vec<Link>,
}

/// Two operations whose order would untie a knot, and where the second of them is placed.
#[derive(Clone, Copy)]
struct Untying {
    first: OperationId,
    second: OperationId,
    position: u32,
}

impl PlacingWalk {
    /// Two operations: if the first comes before the second, processes stop to wait for one another. The second is placed, and the later it
    /// is, the less has to be taken back.
    pub(crate) fn untie(
        &mut self,
        alloc: Global,
        order: &mut Propagation<'_>,
    ) -> Result<Option<(OperationId, OperationId)>, AllocError> {
        let ring = self.find_ring(alloc, order)?;
        let mut best: Option<Untying> = None;
        for link in ring.links.as_slice() {
            best = later(best, self.early_writer(order, *link));
        }
        if best.is_none() {
            for link in ring.links.as_slice() {
                best = later(best, self.lost_source(order, *link));
            }
        }
        Ok(match best {
            Some(untying) => Some((untying.first, untying.second)),
            None => None,
        })
    }

    /// Finds the ring at the end of the chain that begins with the first process that waits. A chain of as many links as there are processes comes to one
    /// again, and the ring is what lies behind that.
    fn find_ring(
        &self,
        alloc: Global,
        order: &mut Propagation<'_>,
    ) -> Result<WaitingRing, AllocError> {
        let log = order.log();
        let processes = log.processes();
        let mut chain = ProcessChain::new(alloc, processes)?;
        let mut process = self.first_waiting(processes);
        for _ in 0..processes {
            if chain.has(process) {
                break;
            }
            let link = self.link_of(order, process);
            chain.add(process, link)?;
            process = link.next;
        }
        let links = Vec::from_slice(alloc, chain.ring(process))?;
        order.spend(processes as u64);
        Ok(WaitingRing { links })
    }

    /// Finds the first process that is not at its end: none can go on when this is asked.
    fn first_waiting(&self, processes: u32) -> ProcessId {
        for process in ProcessId::first(processes) {
            if at(self.awaited.as_slice(), process.number(), Awaited::Never) != Awaited::Never {
                return process;
            }
        }
        ProcessId::FIRST
    }

    /// Returns what the process waits for, and a process that has to go on before. A process that can go on, or that is at its end, stands for itself: so the chain of
    /// links ends there, in a ring of one that nothing unties.
    fn link_of(&self, order: &mut Propagation<'_>, process: ProcessId) -> Link {
        let log = order.log();
        let awaited = at(self.awaited.as_slice(), process.number(), Awaited::Never);
        let waiting = log.number(process, self.memory.front(process));
        let next = match awaited {
            Awaited::Process(other, _) => other,
            Awaited::Readers(location) => self.reader_of(order, waiting, location),
            Awaited::Value(_) => self.writer_for(order, waiting, process),
            Awaited::Nothing => process,
            Awaited::Never => process,
        };
        Link {
            waiting,
            awaited,
            next,
        }
    }

    /// The process of a reader that is not placed and reads what the location holds, other than the operation that waits; or that one's own.
    fn reader_of(
        &self,
        order: &mut Propagation<'_>,
        waiting: OperationId,
        location: LocationId,
    ) -> ProcessId {
        let log = order.log();
        let held = self.memory.held(location);
        if held == NOBODY {
            order.spend(log.count() as u64);
            for reader in log.operation_ids() {
                if self.is_awaited(log, reader, held, waiting) {
                    return log.operation(reader).process;
                }
            }
            return log.operation(waiting).process;
        }
        let class = order.classes().class_of(held);
        let begin = order.readers().begin(class);
        let end = order.readers().end(class);
        order.spend(end.saturating_sub(begin) as u64);
        for position in begin..end {
            let reader = order.readers().reader(position);
            if self.is_awaited(log, reader, held, waiting) {
                return log.operation(reader).process;
            }
        }
        log.operation(waiting).process
    }

    /// Returns whether the operation is not placed and reads what is held, in another process than the operation that waits.
    fn is_awaited(
        &self,
        log: &NumberedLog,
        reader: OperationId,
        held: OperationId,
        waiting: OperationId,
    ) -> bool {
        let operation = log.operation(reader);
        let other = log.operation(waiting);
        self.memory.source(reader) == held
            && operation.reads
            && operation.location == other.location
            && operation.process != other.process
            && !self.memory.is_placed(reader)
    }

    /// The process of a writer that is not placed and may be the source of this reader, or the reader's own.
    fn writer_for(
        &self,
        order: &Propagation<'_>,
        reader: OperationId,
        process: ProcessId,
    ) -> ProcessId {
        let runs = order.sources().intervals(reader);
        // Each time another run comes first, or the same ring would be found again and again.
        let turn = self.stuck;
        for number in 0..runs {
            let mut run = number;
            if runs > 0 {
                run = number.wrapping_add(turn) % runs;
            }
            let low = order.sources().low(reader, run);
            let high = order.sources().high(reader, run);
            if low < high {
                let writer = order.classes().writer(high.wrapping_sub(1));
                let other = order.sources().process(order.classes(), reader, run);
                if !self.memory.is_placed(writer) && other != process {
                    return other;
                }
            }
        }
        process
    }

    /// A write that is held by the location and whose readers cannot come, while a writer waits for them: the writer is to come before it.
    fn early_writer(&self, order: &Propagation<'_>, link: Link) -> Option<Untying> {
        let Awaited::Readers(location) = link.awaited else {
            return None;
        };
        let held = self.memory.held(location);
        if held == NOBODY || order.stands_before(held, link.waiting) {
            return None;
        }
        Some(Untying {
            first: link.waiting,
            second: held,
            position: self.memory.position(held),
        })
    }

    /// A reader whose last source was written over: the reader is to come before what wrote over it, or else that before the source.
    fn lost_source(&self, order: &Propagation<'_>, link: Link) -> Option<Untying> {
        let Awaited::Value(location) = link.awaited else {
            return None;
        };
        let mut over = self.memory.held(location);
        let mut source = NOBODY;
        for _ in 0..self.memory.count() {
            if over == NOBODY {
                return None;
            }
            source = self.memory.held_before(over);
            if order.may_read(link.waiting, source) {
                break;
            }
            over = source;
        }
        if over == NOBODY || !order.may_read(link.waiting, source) {
            return None;
        }
        if !order.stands_before(over, link.waiting) {
            return Some(Untying {
                first: link.waiting,
                second: over,
                position: self.memory.position(over),
            });
        }
        if source != NOBODY && !order.stands_before(source, over) {
            return Some(Untying {
                first: over,
                second: source,
                position: self.memory.position(source),
            });
        }
        None
    }
}

/// The one of the two whose second operation is placed later.
fn later(best: Option<Untying>, other: Option<Untying>) -> Option<Untying> {
    let Some(right) = other else {
        return best;
    };
    if let Some(left) = best {
        if left.position >= right.position {
            return best;
        }
    }
    other
}
