//! Operations of which none can come before the others: a conflict.
//!
//! Past the end of a table `at` reads as its last argument, and `put` does nothing; so arithmetic may wrap, and a wrong place makes no fault.

use crate::explanation::Explanation;
use conflict_analysis::{ProcessSet, WayQuestion};
use numbered_log::{Fronts, NO_NUMBER, NOBODY, OperationId, ProcessId};
use order_propagation::Propagation;
use std::alloc::{AllocError, Global};

/// The next operation of each process after all that may be placed one after the other by the order and the possible sources alone. What is
/// left by then is stuck, whatever was placed when.
pub(crate) struct StuckHeads {
    fronts: Fronts,
    /// The processes of a set of which no next operation can come before another of them.
    stuck: ProcessSet,
    /// Looks that are taken out of the budget when the set is found.
    looked: u64,
}

/// Drops both tables in one call. A derived `Drop` would drop each at every exit of a function that owns them, which makes its proof longer.
impl Drop for StuckHeads {
    fn drop(self) {
        let StuckHeads {
            fronts: _fronts,
            stuck: _stuck,
            looked: _,
        } = self;
    }
}

impl StuckHeads {
    /// Places all that may be placed, and finds a small set of processes that are stuck; none if all is placed.
    pub(crate) fn find(
        alloc: Global,
        order: &mut Propagation<'_>,
    ) -> Result<Option<StuckHeads>, AllocError> {
        let processes = order.log().processes();
        let mut heads = StuckHeads {
            fronts: Fronts::new(alloc, processes)?,
            stuck: ProcessSet::new(alloc, processes)?,
            looked: 0,
        };
        heads.place_all(order);
        let is_stuck = heads.choose_set(order)?;
        order.spend(heads.looked);
        Ok(if is_stuck { Some(heads) } else { None })
    }

    /// The next operation of the process, or `NOBODY`.
    fn head(&self, order: &Propagation<'_>, process: ProcessId) -> OperationId {
        let front = self.fronts.of(process);
        if front <= order.log().last_place(process) {
            order.log().number(process, front)
        } else {
            NOBODY
        }
    }

    /// Returns whether the process belongs to the set.
    fn is_member(&self, process: ProcessId) -> bool {
        self.stuck.has(process)
    }

    /// Places operations of one process after the other, until none goes on.
    fn place_all(&mut self, order: &Propagation<'_>) {
        for _ in 0..order.log().count() {
            let mut goes_on = false;
            for process in order.log().process_ids() {
                goes_on |= self.place_some(order, process);
            }
            if !goes_on {
                break;
            }
        }
    }

    /// Places the next operations of the process up to the first that is stuck. Returns whether there are any.
    fn place_some(&mut self, order: &Propagation<'_>, process: ProcessId) -> bool {
        let begin = self.fronts.of(process);
        for place in begin.up_to(order.log().end(process)) {
            let number = order.log().number(process, place);
            self.looked = self.looked.wrapping_add(order.log().processes() as u64);
            if self.blocking(order, number) != ProcessId::NONE
                || !self.has_placed_source(order, number)
            {
                break;
            }
            self.fronts.set(process, place.next());
        }
        self.fronts.of(process) > begin
    }

    /// A process whose next operation, or one behind it, stands before this one: one of the set if there is one, or none.
    fn blocking(&self, order: &Propagation<'_>, number: OperationId) -> ProcessId {
        let own = order.log().operation(number).process;
        let mut found = ProcessId::NONE;
        for process in order.log().process_ids() {
            if process != own && order.rows().before(number, process) >= self.fronts.of(process) {
                if self.is_member(process) {
                    return process;
                }
                found = process;
            }
        }
        found
    }

    /// Returns whether the operation reads nothing, or has a possible source that is placed.
    fn has_placed_source(&self, order: &Propagation<'_>, number: OperationId) -> bool {
        if !order.log().operation(number).reads || order.sources().has_initial(number) {
            return true;
        }
        for run in 0..order.sources().intervals(number) {
            if self.has_placed(order, number, run) {
                return true;
            }
        }
        false
    }

    /// Returns whether the interval has a source that is placed. The first source of the interval is the first of them to be placed, so it stands for all.
    fn has_placed(&self, order: &Propagation<'_>, number: OperationId, run: u32) -> bool {
        let low = order.sources().low(number, run);
        let writer = order.log().operation(order.classes().writer(low));
        low < order.sources().high(number, run) && self.fronts.has_passed(writer)
    }

    /// Chooses a small set, grown from one stuck process. Returns whether there is one. It is small since the line names each member and
    /// what that one rests on.
    fn choose_set(&mut self, order: &Propagation<'_>) -> Result<bool, AllocError> {
        let mut smallest = NO_NUMBER;
        let mut best = ProcessId::NONE;
        for process in order.log().process_ids() {
            if self.head(order, process) != NOBODY {
                let count = self.grow_from(order, process)?;
                if count < smallest {
                    smallest = count;
                    best = process;
                }
            }
        }
        if best == ProcessId::NONE {
            return Ok(false);
        }
        // The set is that of the last process that was tried, so that of the best is grown once more.
        self.grow_from(order, best)?;
        Ok(true)
    }

    /// Makes the set that of this process and of those that have to go on before one of the set can. Returns the number of its processes. What was in the
    /// set before is forgotten. An operation that reads nothing and is stuck has one that blocks it.
    fn grow_from(
        &mut self,
        order: &Propagation<'_>,
        process: ProcessId,
    ) -> Result<u32, AllocError> {
        self.stuck.begin(process)?;
        let processes = order.log().processes();
        for _ in 0..processes {
            let Some(next) = self.stuck.take_due() else {
                break;
            };
            self.looked = self.looked.wrapping_add(processes as u64);
            let number = self.head(order, next);
            let blocking = self.blocking(order, number);
            if blocking != ProcessId::NONE {
                self.stuck.join(blocking)?;
            } else {
                self.join_sources(order, number)?;
            }
        }
        Ok(self.stuck.count())
    }

    /// Has the processes of the operation's possible sources join the set.
    fn join_sources(
        &mut self,
        order: &Propagation<'_>,
        number: OperationId,
    ) -> Result<(), AllocError> {
        for run in 0..order.sources().intervals(number) {
            if order.sources().low(number, run) < order.sources().high(number, run) {
                let process = order.sources().process(order.classes(), number, run);
                self.stuck.join(process)?;
            }
        }
        Ok(())
    }
}

impl Explanation {
    /// Asks why none of the operations can come first.
    pub(crate) fn ask_stuck(
        &mut self,
        order: &Propagation<'_>,
        heads: &StuckHeads,
    ) -> Result<(), AllocError> {
        self.lines.begin(b'w')?;
        for process in order.log().process_ids() {
            if heads.is_member(process) {
                self.ask_head(order, heads, heads.head(order, process))?;
            }
        }
        let hint = self.finish_line()?;
        self.note_derived(NO_NUMBER, hint)
    }

    /// Asks why this member cannot come before all others.
    fn ask_head(
        &mut self,
        order: &Propagation<'_>,
        heads: &StuckHeads,
        number: OperationId,
    ) -> Result<(), AllocError> {
        let blocking = heads.blocking(order, number);
        if blocking == ProcessId::NONE {
            self.lines.letter(b'r')?;
            self.lines.operation(number)?;
            return self.add_pieces(order, number, order.later());
        }
        let first = heads.head(order, blocking);
        self.lines.letter(b'm')?;
        self.lines.operation(number)?;
        self.lines.operation(first)?;
        self.ask(order, WayQuestion::new(first, number, order.later()))
    }
}
