//! A derivation that is followed clause by clause, and said in sentences.

use crate::chains::{chain_between, is_program_order, shortened};
use crate::facts::{Facts, OrderReason};
use crate::literal_order::order_of;
use crate::literal_words::add_literal;
use crate::needed_steps::{NeededStep, NeededSteps};
use crate::story::{Phrase, Story};
use clause_blocks::trace_clauses::TraceClauses;
use clause_meaning::clause_runs::ClauseRuns;
use clause_meaning::meaning::ClauseMeaning;
use dimacs::{ClauseList, Lit};
use known_literals::ClauseEffect;
use note_text::decimal;
use std::alloc::{AllocError, Global};
use trace_semantics::known_order::ends_before;
use verdict_notes::KeptOp;

/// What follows from a clause.
#[derive(Clone, Copy)]
pub enum Conclusion {
    Contradiction,
    /// The first operation stands before the second.
    Order(usize, usize),
    /// Something else, of this variable: from where an operation reads or not, or which writer is the last one or not.
    Of(u32),
}

/// How a step of a derivation ended.
#[derive(Clone, Copy)]
pub enum StepEnd {
    Contradiction,
    /// A hint was used up, and the next one may follow.
    GoesOn,
    /// The hints do not lead to a contradiction.
    Unclear,
}

/// The words that the trace puts the first operation before the second by a line or by times, which the clause does not say. If both do, times
/// are named.
fn known_words(ops: &[KeptOp<'_>], first: usize, second: usize) -> &'static [u8] {
    match (ops.get(first), ops.get(second)) {
        (Some(earlier), Some(later)) if ends_before(earlier.op.span(), later.op.span()) => {
            b", by their times"
        }
        _ => b", by a before line",
    }
}

/// The words of the reason of a clause of one order. Its caller gives `BeforePair` or `ProgramOrder` alone.
fn words_of(reason: OrderReason, ops: &[KeptOp<'_>], first: usize, second: usize) -> &'static [u8] {
    match reason {
        OrderReason::BeforePair => known_words(ops, first, second),
        OrderReason::ProgramOrder | OrderReason::Through(_) | OrderReason::Said => {
            b", program order"
        }
    }
}

/// What is known and what was said of it, within one step of a derivation.
pub struct Teller<'t> {
    alloc: Global,
    pub clauses: &'t TraceClauses,
    /// What each clause of the formula says, by its place, from 0.
    meanings: ClauseRuns<'t>,
    pub story: Story<'t>,
    /// What is known in the step at hand. Each step begins anew with what it supposes.
    facts: Facts,
    /// The orders that `say_order` has said in the step at hand, so that none is said twice.
    said: Vec<(usize, usize)>,
}

/// Drops the tables in one call. A derived `Drop` would drop each at every exit of a function that owns a teller, which makes its proof longer.
impl Drop for Teller<'_> {
    fn drop(self) {
        let Teller {
            alloc: _,
            clauses: _,
            meanings: _meanings,
            story: _story,
            facts: _facts,
            said: _said,
        } = self;
    }
}

impl<'t> Teller<'t> {
    /// Nothing is known.
    pub fn new(
        alloc: Global,
        clauses: &'t TraceClauses,
        meanings: ClauseRuns<'t>,
        story: Story<'t>,
    ) -> Teller<'t> {
        Teller {
            alloc,
            clauses,
            meanings,
            story,
            facts: Facts::new(alloc),
            said: Vec::new(alloc),
        }
    }

    /// The number of operations.
    fn operations(&self) -> usize {
        self.clauses.layout().operations()
    }

    /// Gives what the literal concludes.
    fn conclusion_of(&self, literal: Lit) -> Conclusion {
        match order_of(self.operations(), literal) {
            Some((first, second)) => Conclusion::Order(first, second),
            None => Conclusion::Of(literal.variable()),
        }
    }

    /// Returns whether a sentence has said that the first operation stands before the second.
    fn has_said(&self, first: usize, second: usize) -> bool {
        for pair in &self.said {
            if pair.0 == first && pair.1 == second {
                return true;
            }
        }
        false
    }

    /// Says the chain of these operations, and these words after it.
    fn say_chain(&mut self, chain: &[usize], end: &[u8]) {
        let mut sentence = self.story.begin();
        for k in 0..chain.len() {
            if k > 0 {
                sentence.add(&[b" < "]);
            }
            self.story.add_phrase(&mut sentence, Phrase::Name(chain[k]));
        }
        sentence.add(&[end]);
        self.story.end(&sentence);
    }

    /// Says that the first operation stands before the second, and why, unless a sentence has.
    pub fn say_order(&mut self, first: usize, second: usize) -> Result<(), AllocError> {
        if self.has_said(first, second) {
            return Ok(());
        }
        self.said.push((first, second))?;
        if is_program_order(self.story.ops(), first, second) {
            self.story.say(&[
                Phrase::Name(first),
                Phrase::Words(b" before "),
                Phrase::Name(second),
                Phrase::Words(b", program order"),
            ]);
            return Ok(());
        }
        match self.facts.reason_of(first, second) {
            Some(OrderReason::BeforePair) => {
                let why = known_words(self.story.ops(), first, second);
                self.story.say(&[
                    Phrase::Name(first),
                    Phrase::Words(b" before "),
                    Phrase::Name(second),
                    Phrase::Words(why),
                ]);
            }
            Some(OrderReason::Through(_)) => {
                let chain = chain_between(self.alloc, &self.facts, first, second)?;
                let short = shortened(self.alloc, self.story.ops(), chain.as_slice())?;
                self.say_chain(short.as_slice(), b"");
            }
            Some(OrderReason::ProgramOrder) | Some(OrderReason::Said) | None => {}
        }
        Ok(())
    }

    /// The operation through which the other literals of a clause of transitivity lead from the first to the second. Each literal but the conclusion
    /// is false, so its negation is an order that is known.
    fn middle_of(&self, literals: &[Lit], first: usize, second: usize) -> Option<usize> {
        for literal in literals {
            if let Some((a, b)) = order_of(self.operations(), literal.negated()) {
                if a == first && b != second {
                    return Some(b);
                }
            }
        }
        None
    }

    /// Says a cycle of three operations: the negations of the three literals, each of which is known. It begins with the first literal, and looks
    /// for the one that goes on from where the chain ends. Each of the three orders is said as the chain behind it.
    fn say_cycle(&mut self, literals: &[Lit]) -> Result<(), AllocError> {
        let Some(literal) = literals.first() else {
            return Ok(());
        };
        let Some((first, second)) = order_of(self.operations(), literal.negated()) else {
            return Ok(());
        };
        let mut cycle = chain_between(self.alloc, &self.facts, first, second)?;
        let mut last = second;
        for _ in 1..literals.len() {
            let Some(next) = self.next_in_cycle(literals, last) else {
                break;
            };
            let more = chain_between(self.alloc, &self.facts, last, next)?;
            // The first operation of this chain is the last one of the chain before it.
            for operation in more.as_slice().get(1..).unwrap_or(&[]) {
                cycle.push(*operation)?;
            }
            last = next;
        }
        let short = shortened(self.alloc, self.story.ops(), cycle.as_slice())?;
        self.say_chain(short.as_slice(), b": contradiction");
        Ok(())
    }

    /// The operation before which a literal of the clause denies that this one stands.
    fn next_in_cycle(&self, literals: &[Lit], from: usize) -> Option<usize> {
        for literal in literals {
            if let Some((a, b)) = order_of(self.operations(), literal.negated()) {
                if a == from {
                    return Some(b);
                }
            }
        }
        None
    }

    /// Says a clause of transitivity. An order that it concludes is only kept, as a chain: it is said when a sentence needs it.
    fn tell_transitivity(
        &mut self,
        literals: &[Lit],
        conclusion: Conclusion,
    ) -> Result<(), AllocError> {
        match conclusion {
            Conclusion::Contradiction => self.say_cycle(literals),
            Conclusion::Order(first, second) => {
                let reason = match self.middle_of(literals, first, second) {
                    Some(middle) => OrderReason::Through(middle),
                    None => OrderReason::Said,
                };
                self.facts.add_order(first, second, reason)
            }
            Conclusion::Of(_) => Ok(()),
        }
    }

    /// Says a clause of one order. The order is only kept, and is said when a sentence needs it; but if the opposite one is known, both are said.
    fn tell_order(
        &mut self,
        literals: &[Lit],
        conclusion: Conclusion,
        reason: OrderReason,
    ) -> Result<(), AllocError> {
        match conclusion {
            Conclusion::Order(first, second) => self.facts.add_order(first, second, reason),
            Conclusion::Of(_) => Ok(()),
            Conclusion::Contradiction => {
                let Some(literal) = literals.first() else {
                    return Ok(());
                };
                let Some((second, first)) = order_of(self.operations(), literal.negated()) else {
                    return Ok(());
                };
                self.say_order(second, first)?;
                let why = words_of(reason, self.story.ops(), first, second);
                self.story.say(&[
                    Phrase::Name(first),
                    Phrase::Words(b" before "),
                    Phrase::Name(second),
                    Phrase::Words(why),
                    Phrase::Words(b": contradiction"),
                ]);
                Ok(())
            }
        }
    }

    /// Says a clause of the formula that says this, if it is one of order, and keeps an order that it concludes.
    fn tell_orders(
        &mut self,
        meaning: ClauseMeaning,
        literals: &[Lit],
        conclusion: Conclusion,
    ) -> Result<(), AllocError> {
        match meaning {
            ClauseMeaning::ProgramOrder(_) => {
                self.tell_order(literals, conclusion, OrderReason::ProgramOrder)
            }
            ClauseMeaning::BeforePair(_, _) => {
                self.tell_order(literals, conclusion, OrderReason::BeforePair)
            }
            ClauseMeaning::NoCycle { .. } => self.tell_transitivity(literals, conclusion),
            ClauseMeaning::HasSource(_)
            | ClauseMeaning::NoSource { .. }
            | ClauseMeaning::BeforeWriter { .. }
            | ClauseMeaning::AfterSource { .. }
            | ClauseMeaning::NotBetween { .. }
            | ClauseMeaning::HasLast(_)
            | ClauseMeaning::NoLast { .. }
            | ClauseMeaning::BeforeLast { .. } => self.keep_order(conclusion),
        }
    }

    /// Keeps the order that a sentence has said.
    fn keep_order(&mut self, conclusion: Conclusion) -> Result<(), AllocError> {
        match conclusion {
            Conclusion::Order(first, second) => {
                self.facts.add_order(first, second, OrderReason::Said)
            }
            _ => Ok(()),
        }
    }

    /// Says a clause that an earlier step has added.
    fn tell_step(
        &mut self,
        number: u64,
        conclusion: Conclusion,
        unit: Option<Lit>,
    ) -> Result<(), AllocError> {
        let digits = decimal(number);
        let mut sentence = self.story.begin();
        sentence.add(&[b"by step ", digits.as_slice(), b", "]);
        match unit {
            Some(literal) => {
                add_literal(self.clauses.layout(), &self.story, &mut sentence, literal);
            }
            None => sentence.add(&[b"this is impossible: contradiction"]),
        }
        self.story.end(&sentence);
        self.keep_order(conclusion)
    }

    /// Says the clause of this id of these literals, by what is implied: `unit`, or a contradiction if there is none. An id of no needed step is
    /// that of a clause of the formula, which stands one place lower, as places count from 0 and ids from 1.
    fn tell_clause(
        &mut self,
        needed: &NeededSteps<'_>,
        id: u64,
        literals: &[Lit],
        unit: Option<Lit>,
    ) -> Result<(), AllocError> {
        let conclusion = match unit {
            Some(literal) => self.conclusion_of(literal),
            None => Conclusion::Contradiction,
        };
        if let Some((_, number)) = needed.step_of(id) {
            return self.tell_step(number, conclusion, unit);
        }
        let place = usize::try_from(id.saturating_sub(1)).unwrap_or(usize::MAX);
        match self.meanings.meaning_at(place) {
            Some(meaning) => {
                self.tell_orders(meaning, literals, conclusion)?;
                self.tell_sources(meaning, conclusion)
            }
            None => Ok(()),
        }
    }

    /// Follows the clause of these literals. It is said before its literal becomes known, so that the sentence uses only what was known. A clause
    /// that a known literal satisfies is passed over; one that is open otherwise is no hint that unit propagation can use.
    fn follow_clause(
        &mut self,
        needed: &NeededSteps<'_>,
        id: u64,
        literals: &[Lit],
    ) -> Result<StepEnd, AllocError> {
        match self.facts.literals.effect_on(literals) {
            ClauseEffect::Contradiction => {
                self.tell_clause(needed, id, literals, None)?;
                Ok(StepEnd::Contradiction)
            }
            ClauseEffect::Implies(literal) => {
                if !self.facts.literals.has(literal) {
                    self.tell_clause(needed, id, literals, Some(literal))?;
                    self.facts.literals.add(literal)?;
                }
                Ok(StepEnd::GoesOn)
            }
            ClauseEffect::Open(first, second) => {
                let is_satisfied = self.facts.literals.has(first)
                    || self.facts.literals.has(second);
                Ok(if is_satisfied {
                    StepEnd::GoesOn
                } else {
                    StepEnd::Unclear
                })
            }
        }
    }

    /// Follows the hint. One that is not positive belongs to a step that is justified by more than unit propagation, which no sentence says.
    fn follow(&mut self, needed: &NeededSteps<'_>, hint: i64) -> Result<StepEnd, AllocError> {
        if hint <= 0 {
            return Ok(StepEnd::Unclear);
        }
        let id = hint.unsigned_abs();
        if let Some((literals, _)) = needed.step_of(id) {
            return self.follow_clause(needed, id, literals);
        }
        let place = usize::try_from(id - 1).unwrap_or(usize::MAX);
        let clauses = self.clauses;
        if place >= clauses.count() {
            return Ok(StepEnd::Unclear);
        }
        let clause = clauses.clause(place);
        self.follow_clause(needed, id, clause.as_slice())
    }

    /// Forgets what the step before it knew and said, and supposes that the clause of a step is false.
    fn suppose(&mut self, literals: &[Lit]) -> Result<(), AllocError> {
        self.facts = Facts::new(self.alloc);
        self.said = Vec::new(self.alloc);
        for literal in literals {
            let negated = literal.negated();
            self.facts.literals.add(negated)?;
            let conclusion = self.conclusion_of(negated);
            self.keep_order(conclusion)?;
        }
        Ok(())
    }

    /// Says the number of a step, and what it supposes.
    fn say_supposition(&mut self, number: u64, literals: &[Lit]) {
        let digits = decimal(number);
        let mut sentence = self.story.begin();
        sentence.add(&[b"step ", digits.as_slice()]);
        if literals.is_empty() {
            sentence.add(&[b", without a supposition"]);
        } else {
            sentence.add(&[b": suppose "]);
        }
        for k in 0..literals.len() {
            if k > 0 {
                sentence.add(&[b", and "]);
            }
            let supposed = literals[k].negated();
            add_literal(self.clauses.layout(), &self.story, &mut sentence, supposed);
        }
        self.story.end(&sentence);
    }

    /// Says the step of this number, counted from 1. The answer is whether its hints lead to a contradiction. A derivation of one step has no number
    /// and supposes nothing, as its clause is the empty one.
    pub fn tell(
        &mut self,
        needed: &NeededSteps<'_>,
        step: &NeededStep<'_>,
        number: u64,
    ) -> Result<bool, AllocError> {
        if needed.count() > 1 {
            self.say_supposition(number, step.literals);
        }
        self.suppose(step.literals)?;
        for hint in &step.hints {
            match self.follow(needed, *hint)? {
                StepEnd::Contradiction => return Ok(true),
                StepEnd::GoesOn => {}
                StepEnd::Unclear => return Ok(false),
            }
        }
        Ok(false)
    }
}
