//! Decisions, and what is learned from their conflicts.
//!
//! In functions of a step `None` means that the walk goes on, and an ending that it is over.
//!
//! The front of a process is the place of its next operation. In a walk that decides always, readers are looked at while decisions stand only within the
//! reach, a number of places around the fronts (`reach.rt` of `order_propagation`).

use crate::placing_walk::{Deciding, PlacingWalk, WalkEnding};
use crate::waiting::Awaited;
use closed_rows::PairReason;
use conflict_analysis::Backjump;
use numbered_log::{NO_NUMBER, OperationId};
use order_propagation::{Propagated, Propagation, Stop};
use std::alloc::{AllocError, Global};
use total_tables::{at, size};

/// The most times that no operation can come next before a walk gives up.
const MOST_STUCK: u32 = 20_000;

/// The most times that a walk begins anew at the front since nothing says what to decide.
const MOST_RESTARTS: u32 = 40;

impl PlacingWalk {
    /// Decides that the operation comes before its rivals, and places it, unless what follows says that it has to wait.
    pub(crate) fn decide_and_place(
        &mut self,
        order: &mut Propagation<'_>,
        number: OperationId,
    ) -> Result<Option<WalkEnding>, AllocError> {
        let operation = order.log().operation(number);
        let before = order.pairs().count();
        for process in order.log().process_ids() {
            if process != operation.process {
                if let Some(rival) = self.next_rival(order, operation, process) {
                    if !order.stands_before(number, rival) {
                        match self.push_decision(order, number, rival) {
                            Ok(()) => {}
                            Err(Stop::Conflict) => return self.resolve(order),
                            Err(Stop::OutOfMemory) => return Err(AllocError),
                        }
                    }
                }
            }
        }
        if order.pairs().count() != before || order.has_waiting() {
            match self.learning.clauses.propagate(order)? {
                Propagated::Done => {}
                Propagated::Spent => return Ok(Some(WalkEnding::GivenUp)),
                Propagated::Conflict => return self.resolve(order),
            }
        }
        if order.pairs().count() != before {
            self.heed(order, NO_NUMBER);
            let is_next = operation.place == self.memory.front(operation.process);
            if !is_next || self.awaited_by(order, operation.process) != Awaited::Nothing {
                return Ok(None);
            }
        }
        self.place(order, number)?;
        Ok(None)
    }

    /// Decides the order of the two operations, and takes back what is placed against it.
    pub(crate) fn decide(
        &mut self,
        order: &mut Propagation<'_>,
        first: OperationId,
        second: OperationId,
    ) -> Result<Option<WalkEnding>, AllocError> {
        if !order.log().has_operation(first) || !order.log().has_operation(second) {
            return Ok(Some(WalkEnding::GivenUp));
        }
        match self.push_decision(order, first, second) {
            Ok(()) => {}
            Err(Stop::Conflict) => return self.resolve(order),
            Err(Stop::OutOfMemory) => return Err(AllocError),
        }
        match self.learning.clauses.propagate(order)? {
            Propagated::Done => self.heed(order, NO_NUMBER),
            Propagated::Spent => return Ok(Some(WalkEnding::GivenUp)),
            Propagated::Conflict => return self.resolve(order),
        }
        Ok(None)
    }

    /// Decides the order. A decision that ends in a conflict counts too, so it is noted first: `decided_at` has an entry for each decision of the order.
    fn push_decision(
        &mut self,
        order: &mut Propagation<'_>,
        first: OperationId,
        second: OperationId,
    ) -> Result<(), Stop> {
        self.note_decision()?;
        order.decide(first, second)
    }

    /// Notes how many operations are placed at the decision.
    fn note_decision(&mut self) -> Result<(), AllocError> {
        let placed = self.memory.count();
        self.decided_at.push(placed)?;
        Ok(())
    }

    /// Learns from the conflict of the order.
    fn resolve(&mut self, order: &mut Propagation<'_>) -> Result<Option<WalkEnding>, AllocError> {
        order.forget_waiting();
        self.learning.analysis.begin();
        self.learning
            .analysis
            .ask_conflict(order, &self.learning.clauses)?;
        self.learn(order)
    }

    /// Learns a clause from what the analysis was asked, jumps back to where it leaves one literal, and adds that, as long as this is a conflict
    /// again. The caller has asked why the order is in conflict, or why no process of a closed set can go on before another of them.
    pub(crate) fn learn(
        &mut self,
        order: &mut Propagation<'_>,
    ) -> Result<Option<WalkEnding>, AllocError> {
        let mut target = NO_NUMBER;
        for _ in 0..order.budget().left() {
            let learned = self
                .learning
                .analysis
                .find_clause(order, &self.learning.clauses)?;
            let steps = self.learning.analysis.take_steps();
            order.spend(steps);
            let Backjump::To(level, literal) = learned else {
                return Ok(Some(WalkEnding::Refuted));
            };
            let literals = self.learning.analysis.literals();
            let clause = self.learning.clauses.add(literals)?;
            // The first decision that is undone, so its entry must be read before the jump drops it.
            target = target.min(at(self.decided_at.as_slice(), level, 0));
            self.jump_back(order, level);
            let added = order.add(literal.first, literal.second, PairReason::Learned(clause));
            match self.settled(order, added)? {
                Propagated::Done => {
                    self.heed(order, target);
                    // The fronts may have moved back, so readers that are in reach now wait for a look; if all always are, none does.
                    order.wake_from_fronts(order.reach());
                    return Ok(None);
                }
                Propagated::Spent => break,
                Propagated::Conflict => {}
            }
            // Beside the count of `jump_back`: a clause that is a conflict as soon as it is added counts twice.
            self.conflicts = self.conflicts.wrapping_add(1);
            if self.conflicts > self.most_conflicts || self.learning.clauses.is_full() {
                break;
            }
            order.forget_waiting();
            self.learning.analysis.begin();
            self.learning
                .analysis
                .ask_conflict(order, &self.learning.clauses)?;
        }
        Ok(Some(WalkEnding::GivenUp))
    }

    /// Backtracks to this number of decisions. A conflict is counted here for each clause.
    fn jump_back(&mut self, order: &mut Propagation<'_>, level: u32) {
        self.conflicts = self.conflicts.wrapping_add(1);
        // The rows, sources and pairs of the order; operations are taken back by `heed`, when the new pair is there.
        order.take_back(level);
        for _ in level..size(self.decided_at.as_slice()) {
            if self.decided_at.pop().is_none() {
                break;
            }
        }
        // Pairs that come now have the numbers of those that were taken back, and were not heeded yet.
        self.heeded = self.heeded.min(order.pairs().count());
    }

    /// The result of propagation after a pair was added.
    fn settled(
        &mut self,
        order: &mut Propagation<'_>,
        added: Result<(), Stop>,
    ) -> Result<Propagated, AllocError> {
        match added {
            Ok(()) => self.learning.clauses.propagate(order),
            Err(Stop::Conflict) => Ok(Propagated::Conflict),
            Err(Stop::OutOfMemory) => Err(AllocError),
        }
    }

    /// Takes back what is not placed in the order of all pairs, with all behind it; if the walk decides always, also what was placed after the
    /// decisions that were undone. `target` is the number of operations that were placed before these, or `NO_NUMBER` if none was undone.
    pub(crate) fn heed(&mut self, order: &mut Propagation<'_>, target: u32) {
        let log = order.log();
        let mut left = self.memory.count();
        if self.deciding != Deciding::WhenStuck {
            left = left.min(target);
        }
        for number in self.heeded..order.pairs().count() {
            let pair = order.pairs().pair(number);
            let second = self.memory.position(pair.second);
            let first = self.memory.position(pair.first);
            if second != NO_NUMBER && (first == NO_NUMBER || first > second) && second < left {
                left = second;
            }
        }
        self.heeded = order.pairs().count();
        self.take_back(order, left);
        if self.deciding == Deciding::WhenStuck {
            self.memory.note_sources(order);
        }
        self.change_all(log.processes());
    }

    /// Takes operations back, the last first, until this number is placed.
    fn take_back(&mut self, order: &mut Propagation<'_>, left: u32) {
        let log = order.log();
        self.memory.take_back(log, left);
        for process in log.process_ids() {
            order.set_front(process, self.memory.front(process));
        }
    }

    /// Looks at the readers that come next once more, and at what waits. Returns how the walk goes on, if that says anything new. If so, the inner part is
    /// as in other steps. Such a reader may have been out of reach when its row changed, and fronts that go back wake none by themselves: what it says
    /// may be missing, and is surer than a decision.
    fn look_at_fronts(
        &mut self,
        order: &mut Propagation<'_>,
    ) -> Result<Option<Option<WalkEnding>>, AllocError> {
        let before = order.pairs().count();
        order.wake_from_fronts(1);
        match self.learning.clauses.propagate(order)? {
            Propagated::Spent => return Ok(Some(Some(WalkEnding::GivenUp))),
            Propagated::Conflict => return Ok(Some(self.resolve(order)?)),
            Propagated::Done => {}
        }
        if order.pairs().count() == before {
            return Ok(None);
        }
        self.heed(order, NO_NUMBER);
        Ok(Some(None))
    }

    /// Goes on if no operation can come next: an order is decided by which processes stop to wait for one another, or it is a conflict.
    pub(crate) fn go_on_stuck(
        &mut self,
        alloc: Global,
        order: &mut Propagation<'_>,
    ) -> Result<Option<WalkEnding>, AllocError> {
        self.stuck = self.stuck.wrapping_add(1);
        if self.stuck > MOST_STUCK || self.conflicts > self.most_conflicts {
            return Ok(Some(WalkEnding::GivenUp));
        }
        if self.deciding != Deciding::WhenStuck {
            if let Some(found) = self.look_at_fronts(order)? {
                return Ok(found);
            }
            if self.ask_closed_set(order)? {
                return self.learn(order);
            }
        }
        if let Some((first, second)) = self.untie(alloc, order)? {
            return self.decide(order, first, second);
        }
        if self.deciding == Deciding::WhenStuck && self.ask_closed_set(order)? {
            return self.learn(order);
        }
        self.restarts = self.restarts.wrapping_add(1);
        if self.restarts > MOST_RESTARTS {
            return Ok(Some(WalkEnding::GivenUp));
        }
        // Operations alone are taken back: decisions, and what follows from them, stay.
        self.take_back(order, 0);
        self.change_all(order.log().processes());
        Ok(None)
    }
}
