//! The walk.
//!
//! Past the end of a table `at` reads as its last argument, and `put` does nothing; so arithmetic may wrap, and a wrong place makes no fault.

use crate::memory::PlacedMemory;
use crate::waiting::Awaited;
use conflict_analysis::{Learning, ProcessSet};
use numbered_log::{NOBODY, NumberedLog, Operation, OperationId, ProcessId, UNKNOWN_SOURCE};
use order_propagation::Propagation;
use std::alloc::{AllocError, Global};
use total_tables::{at, put};

/// The end of a walk.
#[derive(Clone, Copy, PartialEq, Eq)]
pub enum WalkEnding {
    /// All operations are placed, and the final values are as they have to be.
    Scheduled,
    /// The order contradicts itself without a decision.
    Refuted,
    /// The budget is spent, there were too many conflicts, or nothing says what to decide.
    GivenUp,
}

/// When a walk decides.
#[derive(Clone, Copy, PartialEq, Eq)]
pub enum Deciding {
    /// Only when no operation can come next.
    WhenStuck,
    /// Before an operation is placed: it comes before the next operations on its location in all other processes. Of the clauses that were
    /// learned last, this number of them, a literal is decided first.
    Always(u32),
}

/// A walk over the operations of a log.
pub struct PlacingWalk {
    pub(crate) memory: PlacedMemory,
    /// For each process what its next operation waits for, as it was last seen.
    pub(crate) awaited: Vec<Awaited>,
    /// For each process whether that has to be seen anew: an operation that is placed concerns few of them.
    is_changed: Vec<bool>,
    /// For each operation its estimated place. It is a number of operations from the front of the whole schedule.
    pub(crate) estimates: Vec<u32>,
    pub(crate) deciding: Deciding,
    pub(crate) learning: Learning,
    /// For each decision the number of operations that were placed. The entry of number 0 is that of the first decision.
    pub(crate) decided_at: Vec<u32>,
    /// The number of pairs whose order the placed operations are known to have, so that only newer ones are looked at.
    pub(crate) heeded: u32,
    /// Processes of which none can go on before another of them does.
    pub(crate) closed_set: ProcessSet,
    /// How often no operation could come next.
    pub(crate) stuck: u32,
    /// How often the walk has begun at the front again.
    pub(crate) restarts: u32,
    pub(crate) conflicts: u32,
    /// `conflicts` counts each clause that is learned, and once more each that is a conflict as soon as it is added.
    pub(crate) most_conflicts: u32,
    most_placed: u32,
}

/// Drops each table in one call. A derived `Drop` would drop each at every exit of a function that owns a walk, which makes its proof longer.
impl Drop for PlacingWalk {
    fn drop(self) {
        let _learning = self.into_learning();
    }
}

impl PlacingWalk {
    /// A walk that has not begun, by these estimated places, which gives up after this number of conflicts. It goes on with what the walks
    /// before it have learned of the order.
    pub fn new(
        alloc: Global,
        order: &Propagation<'_>,
        estimates: &[u32],
        manner: (Deciding, u32),
        learning: Learning,
    ) -> Result<PlacingWalk, AllocError> {
        let log = order.log();
        let processes = log.processes() as usize;
        Ok(PlacingWalk {
            memory: PlacedMemory::new(alloc, order)?,
            awaited: vec![in alloc; Awaited::Nothing; processes]?,
            is_changed: vec![in alloc; true; processes]?,
            estimates: Vec::from_slice(alloc, estimates)?,
            deciding: manner.0,
            learning,
            decided_at: Vec::new(alloc),
            heeded: order.pairs().count(),
            closed_set: ProcessSet::new(alloc, log.processes())?,
            stuck: 0,
            restarts: 0,
            conflicts: 0,
            most_conflicts: manner.1,
            most_placed: 0,
        })
    }

    /// The operations that are placed, in their order: a schedule, if the walk has ended with one.
    pub fn placed(&self) -> &[OperationId] {
        self.memory.placed.as_slice()
    }

    /// The largest number of operations that were placed.
    pub fn most_placed(&self) -> u32 {
        self.most_placed
    }

    /// The number of conflicts so far, as it is compared with the most.
    pub fn conflicts(&self) -> u32 {
        self.conflicts
    }

    /// The operations that the conflict rests on by which the walk was refuted, by rising numbers; none if they are not known. It goes on from what the
    /// analysis was asked when the walk ended, so nothing may be taken back before.
    pub fn find_core(
        &mut self,
        alloc: Global,
        order: &mut Propagation<'_>,
    ) -> Result<Option<Vec<OperationId>>, AllocError> {
        let core = self
            .learning
            .analysis
            .find_core(alloc, order, &self.learning.clauses)?;
        let steps = self.learning.analysis.take_steps();
        order.spend(steps);
        Ok(core)
    }

    /// Ends the walk, and gives the clauses that were learned with what they rest on.
    pub fn into_learning(self) -> Learning {
        let PlacingWalk {
            memory: _memory,
            awaited: _awaited,
            is_changed: _is_changed,
            estimates: _estimates,
            deciding: _,
            learning,
            decided_at: _decided_at,
            heeded: _,
            closed_set: _closed_set,
            stuck: _,
            restarts: _,
            conflicts: _,
            most_conflicts: _,
            most_placed: _,
        } = self;
        learning
    }

    /// Places one operation after the other. Those are taken back that break an order which is decided or follows.
    pub fn run(
        &mut self,
        alloc: Global,
        order: &mut Propagation<'_>,
    ) -> Result<WalkEnding, AllocError> {
        for _ in 0..order.budget().left() {
            if order.budget().is_spent() {
                break;
            }
            self.look_at_changed(order);
            if let Some(ending) = self.go_on(alloc, order)? {
                return Ok(ending);
            }
        }
        Ok(WalkEnding::GivenUp)
    }

    /// Takes the next step. Returns the end of the walk, if it has come.
    fn go_on(
        &mut self,
        alloc: Global,
        order: &mut Propagation<'_>,
    ) -> Result<Option<WalkEnding>, AllocError> {
        if self.memory.count() == order.log().count() {
            return match self.wrong_final_value(order) {
                Some((first, second)) => self.decide(order, first, second),
                None => Ok(Some(WalkEnding::Scheduled)),
            };
        }
        if let Deciding::Always(clauses) = self.deciding {
            if let Some(literal) = self.learning.clauses.pick(order, clauses) {
                return self.decide(order, literal.first, literal.second);
            }
        }
        let Some(next) = self.next_operation(order) else {
            return self.go_on_stuck(alloc, order);
        };
        if self.deciding == Deciding::WhenStuck {
            self.place(order, next)?;
            return Ok(None);
        }
        self.decide_and_place(order, next)
    }

    /// Sees anew what the processes wait for of which that may have changed.
    fn look_at_changed(&mut self, order: &mut Propagation<'_>) {
        for process in order.log().process_ids() {
            if at(self.is_changed.as_slice(), process.number(), true) {
                let awaited = self.awaited_by(order, process);
                put(self.awaited.as_mut_slice(), process.number(), awaited);
                put(self.is_changed.as_mut_slice(), process.number(), false);
                order.spend(order.log().processes() as u64);
            }
        }
    }

    /// Returns what the process's next operation waits for: the first that is found, since one is enough to keep it waiting, or `Never` if all its operations
    /// are placed.
    pub(crate) fn awaited_by(&self, order: &Propagation<'_>, process: ProcessId) -> Awaited {
        let log = order.log();
        let front = self.memory.front(process);
        if front > log.last_place(process) {
            return Awaited::Never;
        }
        let number = log.number(process, front);
        let operation = log.operation(number);
        for other in log.process_ids() {
            let place = order.rows().before(number, other);
            if place >= self.memory.front(other) && other != process {
                return Awaited::Process(other, place);
            }
        }
        if operation.reads && !self.fits(order, number, operation) {
            return Awaited::Value(operation.location);
        }
        if operation.writes {
            // Readers that have what the location holds as their only source: a write would come over it.
            let unread = self.memory.unread(operation.location);
            // An update that reads what is held is among the readers that have not come: it need not wait for itself.
            let is_counted = operation.reads && self.memory.source(number) != UNKNOWN_SOURCE;
            if unread > is_counted as u32 {
                return Awaited::Readers(operation.location);
            }
        }
        Awaited::Nothing
    }

    /// Returns whether the reading operation may read what its location holds.
    fn fits(&self, order: &Propagation<'_>, number: OperationId, operation: Operation) -> bool {
        let held = self.memory.held(operation.location);
        let source = self.memory.source(number);
        if source == UNKNOWN_SOURCE {
            order.may_read(number, held)
        } else {
            source == held
        }
    }

    /// Places the operation, and notes which processes may wait for something else now.
    pub(crate) fn place(
        &mut self,
        order: &mut Propagation<'_>,
        number: OperationId,
    ) -> Result<(), AllocError> {
        let log = order.log();
        let operation = log.operation(number);
        let is_free = self.memory.place(number, operation)?;
        order.move_front(operation.process, operation.place.next())?;
        self.most_placed = self.most_placed.max(self.memory.count());
        for process in log.process_ids() {
            let is_changed = match at(self.awaited.as_slice(), process.number(), Awaited::Never) {
                Awaited::Never => false,
                Awaited::Process(other, place) => {
                    other == operation.process && place <= operation.place
                }
                Awaited::Value(location) => is_free && location == operation.location,
                Awaited::Readers(location) => is_free && location == operation.location,
                // It could come before, and may have to wait now.
                Awaited::Nothing => is_free && self.is_near(log, process, operation),
            };
            if is_changed || process == operation.process {
                put(self.is_changed.as_mut_slice(), process.number(), true);
            }
        }
        order.spend(log.processes() as u64);
        Ok(())
    }

    /// Returns whether the process's next operation is on the location of this one.
    fn is_near(&self, log: &NumberedLog, process: ProcessId, operation: Operation) -> bool {
        let number = log.number(process, self.memory.front(process));
        log.operation(number).location == operation.location
    }

    /// Two operations of which the first must be decided to come before the second since the location of the first has a wrong final value:
    /// what it holds, and a possible last writer. Either is `NOBODY` if an initial value stands there; the walk then gives up, as no order can be decided.
    fn wrong_final_value(&self, order: &Propagation<'_>) -> Option<(OperationId, OperationId)> {
        let log = order.log();
        for location in log.location_ids() {
            let held = self.memory.held(location);
            if let Some(value) = log.last(location) {
                // No operation has written the location if `NOBODY` is held.
                let mut left = log.initial(location);
                if held != NOBODY {
                    left = Some(log.operation(held).left);
                }
                if left != Some(value) {
                    let reader = order.final_reader(location);
                    return Some((held, order.sources().source(order.classes(), reader)));
                }
            }
        }
        None
    }

    /// Has what each process waits for be seen anew.
    pub(crate) fn change_all(&mut self, processes: u32) {
        for process in ProcessId::first(processes) {
            put(self.is_changed.as_mut_slice(), process.number(), true);
        }
    }
}
