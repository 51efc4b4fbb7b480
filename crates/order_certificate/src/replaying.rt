//! Certificates of what the engine has refuted.
//!
//! A clause that comes out here has the number of its step in `clause_steps`, so clauses and these steps are always added together. Those that are left
//! out have none, so later clauses have other numbers than in the walk.

use crate::explanation::Explanation;
use crate::order_certificate::OrderCertificate;
use crate::stuck_heads::StuckHeads;
use closed_rows::PairReason;
use conflict_analysis::{LearnedClauses, Learning, Literal};
use numbered_log::{Budget, NumberedLog, OperationId, ProcessPlace};
use order_propagation::{Propagated, Propagation, Stop};
use std::alloc::{AllocError, Global};
use total_tables::{put, size};

/// The number of places behind the literals of a clause up to which readers are looked at first. To look at the whole log for each clause can
/// take more steps than the walks took.
const NEAR: u32 = 40;

/// The most looks at the same readers, as long as something new comes of each.
const MOST_LOOKS: u32 = 8;

/// The certificate of the conflict in which the propagation of the order ended, without a decision. None if a reason has no line, or if the
/// budget is spent before.
pub fn certificate_of_conflict(
    alloc: Global,
    order: &mut Propagation<'_>,
) -> Result<Option<OrderCertificate>, AllocError> {
    let clauses = LearnedClauses::new(alloc, order.log().count())?;
    let mut explanation = Explanation::new(alloc, order.log().count(), false)?;
    let step = explanation.explain(order, &clauses, &[])?;
    Ok(OrderCertificate::of(explanation, step))
}

/// The certificate of updates and last writes that have too few possible sources by the order. None if a reason has no line, or if the budget is
/// spent before.
pub fn certificate_of_takers(
    alloc: Global,
    order: &mut Propagation<'_>,
    takers: &[OperationId],
) -> Result<Option<OrderCertificate>, AllocError> {
    let clauses = LearnedClauses::new(alloc, order.log().count())?;
    let mut explanation = Explanation::new(alloc, order.log().count(), false)?;
    let step = explanation.explain_takers(order, &clauses, takers)?;
    Ok(OrderCertificate::of(explanation, step))
}

/// The certificate of a log that walks have refuted which have learned this: each clause is derived anew, from those before it. If there is a core,
/// the operations that the refutation names, what does not belong to it is passed over: that takes a small part of the steps. If that fails, all is
/// derived, with three fourths of the budget. None if no conflict comes of it again, if a reason has no line, or if the budget is spent before.
pub fn certificate_of_learning(
    alloc: Global,
    log: &NumberedLog,
    learning: &Learning,
    core: Option<&[OperationId]>,
    budget: &mut Budget,
) -> Result<Option<OrderCertificate>, AllocError> {
    if core.is_some() {
        let certificate = certificate_within(alloc, log, learning, core, budget)?;
        if certificate.is_some() {
            return Ok(certificate);
        }
    }
    let kept = budget.share(budget.left() / 4);
    let certificate = certificate_within(alloc, log, learning, None, budget)?;
    budget.give_back(kept);
    Ok(certificate)
}

/// The certificate by what belongs to the core, or by all there is.
fn certificate_within(
    alloc: Global,
    log: &NumberedLog,
    learning: &Learning,
    core: Option<&[OperationId]>,
    budget: &mut Budget,
) -> Result<Option<OrderCertificate>, AllocError> {
    let mut order = Propagation::new(alloc, log, *budget)?;
    let certificate = match order.propagate_in_rounds()? {
        Propagated::Conflict => certificate_of_conflict(alloc, &mut order)?,
        Propagated::Spent => None,
        Propagated::Done => {
            let mut replay = ClauseReplay::new(alloc, log)?;
            let step = match core {
                Some(operations) => replay.derive_needed(&mut order, learning, operations)?,
                None => replay.derive_all(&mut order, &learning.clauses)?,
            };
            OrderCertificate::of(replay.explanation, step)
        }
    };
    *budget = order.budget();
    Ok(certificate)
}

/// Has no other reading operations be looked at than these.
fn look_only_at(
    alloc: Global,
    order: &mut Propagation<'_>,
    operations: &[OperationId],
) -> Result<(), AllocError> {
    let mut is_wanted = vec![in alloc; false; order.log().count() as usize]?;
    for operation in operations {
        put(is_wanted.as_mut_slice(), operation.number(), true);
    }
    order.look_only_at(is_wanted.as_slice());
    Ok(())
}

/// The largest place of the operations in their processes.
fn last_place(log: &NumberedLog, operations: &[OperationId]) -> ProcessPlace {
    let mut last = ProcessPlace::START;
    for operation in operations {
        last = last.later(log.operation(*operation).place);
    }
    last
}

/// The largest place of the literals' operations in their processes.
fn last_literal(log: &NumberedLog, literals: &[Literal]) -> ProcessPlace {
    let mut last = ProcessPlace::START;
    for literal in literals {
        let first = log.operation(literal.first).place;
        let second = log.operation(literal.second).place;
        last = last.later(first.later(second));
    }
    last
}

/// The clauses that were derived anew, with their steps.
#[derive(Drop)]
struct ClauseReplay {
    alloc: Global,
    explanation: Explanation,
    clauses: LearnedClauses,
}

/// What came of a clause.
#[derive(Clone, Copy)]
enum Replayed {
    /// It has a step, or none that is needed.
    Done,
    /// With it there is a conflict, of which the step derives the empty clause, if there is one.
    Refuted(Option<u32>),
}

impl ClauseReplay {
    fn new(alloc: Global, log: &NumberedLog) -> Result<ClauseReplay, AllocError> {
        Ok(ClauseReplay {
            alloc,
            explanation: Explanation::new(alloc, log.count(), true)?,
            clauses: LearnedClauses::for_replay(alloc, log.count())?,
        })
    }

    /// Derives one clause after the other, until there is a conflict without a decision. Returns the step of the empty clause.
    fn derive_all(
        &mut self,
        order: &mut Propagation<'_>,
        learned: &LearnedClauses,
    ) -> Result<Option<u32>, AllocError> {
        for number in 0..learned.count() {
            if order.budget().is_spent() {
                break;
            }
            let literals = learned.literals(number);
            match self.derive_clause(order, literals)? {
                Replayed::Done => {}
                Replayed::Refuted(step) => return Ok(step),
            }
        }
        // Without a conflict the log may still be refuted by operations that are stuck before any decision.
        self.explain(order, false, &[])
    }

    /// Does the same with the clauses of the core alone. Reading operations that the core does not name are not looked at.
    fn derive_needed(
        &mut self,
        order: &mut Propagation<'_>,
        learning: &Learning,
        core: &[OperationId],
    ) -> Result<Option<u32>, AllocError> {
        look_only_at(self.alloc, order, core)?;
        if self.follow(order, core)? {
            return self.explain(order, true, &[]);
        }
        for number in 0..learning.clauses.count() {
            if order.budget().is_spent() {
                break;
            }
            if learning.analysis.is_needed(number) {
                match self.derive_within_reach(order, learning, number, core)? {
                    Replayed::Done => {}
                    Replayed::Refuted(step) => return Ok(step),
                }
            }
        }
        self.explain(order, false, &[])
    }

    /// Derives the clause of this number, and adds it. What a walk has derived was near to the literals, mostly, or else near to the operations that
    /// the derivation has named. At last all is in reach.
    fn derive_within_reach(
        &mut self,
        order: &mut Propagation<'_>,
        learning: &Learning,
        number: u32,
        core: &[OperationId],
    ) -> Result<Replayed, AllocError> {
        let literals = learning.clauses.literals(number);
        let named = learning.analysis.named_by(number);
        let near = last_literal(order.log(), literals).ahead(NEAR);
        // The fronts stay at the first operations here, so a place of a process is the number of places in reach.
        order.set_reach(near.number());
        let mut step = self.find_step(order, literals, named)?;
        if step.is_none() {
            let far = last_place(order.log(), named).ahead(NEAR);
            order.set_reach(far.number());
            step = self.find_step(order, literals, named)?;
        }
        if step.is_none() {
            order.set_reach(0);
            step = self.find_step(order, literals, named)?;
        }
        self.add_derived(order, literals, step, core)
    }

    /// Derives the clause, and adds it.
    fn derive_clause(
        &mut self,
        order: &mut Propagation<'_>,
        literals: &[Literal],
    ) -> Result<Replayed, AllocError> {
        let step = self.find_step(order, literals, &[])?;
        self.add_derived(order, literals, step, &[])
    }

    /// Derives the clause from the conflict that its literals make when they are all turned round, which may take a further look at these
    /// readers. Returns its step; none if there is no such conflict. The decisions that turn literals round are taken back at the end, when the step is
    /// made.
    fn find_step(
        &mut self,
        order: &mut Propagation<'_>,
        literals: &[Literal],
        readers: &[OperationId],
    ) -> Result<Option<u32>, AllocError> {
        let has_conflict = self.turn_round(order, literals, readers)?;
        let mut step = None;
        if has_variables(order.log(), literals) {
            step = self.explain(order, has_conflict, literals)?;
        }
        order.take_back(0);
        Ok(step)
    }

    /// Adds the clause that this step derives; without a step it is left out.
    fn add_derived(
        &mut self,
        order: &mut Propagation<'_>,
        literals: &[Literal],
        step: Option<u32>,
        core: &[OperationId],
    ) -> Result<Replayed, AllocError> {
        let Some(derived) = step else {
            return Ok(Replayed::Done);
        };
        self.explanation.clause_steps.push(derived)?;
        self.clauses.add(literals)?;
        self.settle(order, literals, core)
    }

    /// Derives the clause of these literals from the conflict, or else from operations that are stuck.
    fn explain(
        &mut self,
        order: &mut Propagation<'_>,
        has_conflict: bool,
        literals: &[Literal],
    ) -> Result<Option<u32>, AllocError> {
        if has_conflict {
            return self.explanation.explain(order, &self.clauses, literals);
        }
        match StuckHeads::find(self.alloc, order)? {
            Some(heads) => {
                let clauses = &self.clauses;
                self.explanation
                    .explain_stuck(order, clauses, &heads, literals)
            }
            None => Ok(None),
        }
    }

    /// Decides the opposite of each literal. Returns whether that ends in a conflict.
    fn turn_round(
        &mut self,
        order: &mut Propagation<'_>,
        literals: &[Literal],
        readers: &[OperationId],
    ) -> Result<bool, AllocError> {
        for literal in literals {
            match order.decide(literal.second, literal.first) {
                Ok(()) => {}
                Err(Stop::Conflict) => return Ok(true),
                Err(Stop::OutOfMemory) => return Err(AllocError),
            }
        }
        self.follow(order, readers)
    }

    /// Propagates, and looks at the readers again as long as something new follows. Returns whether that ends in a conflict.
    fn follow(
        &mut self,
        order: &mut Propagation<'_>,
        readers: &[OperationId],
    ) -> Result<bool, AllocError> {
        for _ in 0..MOST_LOOKS {
            let before = order.pairs().count();
            order.look_again_at(readers);
            if self.clauses.propagate(order)? == Propagated::Conflict {
                return Ok(true);
            }
            if order.pairs().count() == before {
                break;
            }
        }
        Ok(false)
    }

    /// Propagates the order with the clause that was added last. If something new follows, it may of these readers too.
    fn settle(
        &mut self,
        order: &mut Propagation<'_>,
        literals: &[Literal],
        core: &[OperationId],
    ) -> Result<Replayed, AllocError> {
        let clause = self.clauses.count().wrapping_sub(1);
        let before = order.pairs().count();
        let mut has_conflict = false;
        // A clause of one literal has a pair to add at once; the others are looked at by `follow`.
        if size(literals) == 1 {
            has_conflict = add_unit(order, literals, clause)?;
        }
        if !has_conflict {
            has_conflict = self.follow(order, &[])?;
        }
        if !has_conflict && order.pairs().count() != before {
            has_conflict = self.follow(order, core)?;
        }
        if !has_conflict {
            return Ok(Replayed::Done);
        }
        let step = self.explanation.explain(order, &self.clauses, &[])?;
        Ok(Replayed::Refuted(step))
    }
}

/// Adds what the clause of one literal says. Returns whether that is a conflict.
fn add_unit(
    order: &mut Propagation<'_>,
    literals: &[Literal],
    clause: u32,
) -> Result<bool, AllocError> {
    for literal in literals {
        match order.add(literal.first, literal.second, PairReason::Learned(clause)) {
            Ok(()) => {}
            Err(Stop::Conflict) => return Ok(true),
            Err(Stop::OutOfMemory) => return Err(AllocError),
        }
    }
    Ok(false)
}

/// Returns whether each literal is of operations of two processes: program order decides others. A clause with a literal of one process gets no step.
fn has_variables(log: &NumberedLog, literals: &[Literal]) -> bool {
    for literal in literals {
        if log.operation(literal.first).process == log.operation(literal.second).process {
            return false;
        }
    }
    true
}
