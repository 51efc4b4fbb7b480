//! The reasons of pairs, as lines or learned clauses, with the facts that leave of the clause only the pair.

use crate::derivation_steps::DerivationHint;
use crate::explanation::Explanation;
use closed_rows::{OrderedPair, PairReason};
use conflict_analysis::{LearnedClauses, WayQuestion, order_beside};
use numbered_log::{NO_NUMBER, OperationId};
use order_propagation::Propagation;
use std::alloc::AllocError;
use total_tables::at;

impl Explanation {
    /// Returns whether nothing has to be derived of the pair: it was decided, or program order has it.
    pub(crate) fn is_assumed(order: &Propagation<'_>, pair: OrderedPair) -> bool {
        let first = order.log().operation(pair.first);
        let second = order.log().operation(pair.second);
        pair.reason == PairReason::Decided || first.process == second.process
    }

    /// Asks why the pair was added. The answer is the clause that says it; none if it was decided.
    pub(crate) fn ask_reason(
        &mut self,
        order: &Propagation<'_>,
        clauses: &LearnedClauses,
        pair: OrderedPair,
    ) -> Result<Option<DerivationHint>, AllocError> {
        match pair.reason {
            PairReason::Given => self.ask_given(b'b', pair),
            PairReason::Timed => self.ask_given(b't', pair),
            PairReason::BeforeReader(reader) => self.ask_beside(order, reader, pair),
            PairReason::AfterReader(reader) => self.ask_beside(order, reader, pair),
            PairReason::BeforeSource(reader) => {
                self.begin_sources(order, reader, pair.time)?;
                self.ask(order, WayQuestion::new(pair.first, reader, pair.time))?;
                self.finish_main(b'H', pair.first)
            }
            PairReason::BeforeLast(reader) => {
                self.begin_sources(order, reader, pair.time)?;
                self.finish_main(b'H', pair.first)
            }
            PairReason::Learned(clause) => self.ask_clause(order, clauses, clause, pair),
            PairReason::Decided => Ok(None),
            PairReason::Guessed => {
                self.is_lost = true;
                Ok(None)
            }
        }
    }

    /// Makes the line of this letter: the trace itself says the pair.
    fn ask_given(
        &mut self,
        letter: u8,
        pair: OrderedPair,
    ) -> Result<Option<DerivationHint>, AllocError> {
        self.lines.begin(letter)?;
        self.lines.operation(pair.first)?;
        self.lines.operation(pair.second)?;
        self.finish_line()
    }

    /// Finishes the line with the piece that takes all other sources. The letter is `H` or `L`, and the operation the one that the piece names.
    fn finish_main(
        &mut self,
        letter: u8,
        operation: OperationId,
    ) -> Result<Option<DerivationHint>, AllocError> {
        self.lines.letter(letter)?;
        self.lines.operation(operation)?;
        self.finish_line()
    }

    /// Asks why the first operation of the pair is the only source of the reader or stands before all its sources, or why the second one stands after all of
    /// them.
    fn ask_beside(
        &mut self,
        order: &Propagation<'_>,
        reader: OperationId,
        pair: OrderedPair,
    ) -> Result<Option<DerivationHint>, AllocError> {
        self.begin_sources(order, reader, pair.time)?;
        for run in 0..self.earlier.intervals() {
            let beside = order_beside(order, &self.earlier, run, pair);
            if let Some(asked) = beside {
                self.ask(
                    order,
                    WayQuestion::new(asked.first, asked.second, pair.time),
                )?;
            }
        }
        if matches!(pair.reason, PairReason::BeforeReader(_)) {
            self.finish_main(b'L', pair.first)
        } else {
            self.finish_main(b'H', pair.second)
        }
    }

    /// Asks why the other literals of the clause do not hold.
    fn ask_clause(
        &mut self,
        order: &Propagation<'_>,
        clauses: &LearnedClauses,
        clause: u32,
        pair: OrderedPair,
    ) -> Result<Option<DerivationHint>, AllocError> {
        for literal in clauses.literals(clause) {
            if literal.first != pair.first || literal.second != pair.second {
                self.ask(
                    order,
                    WayQuestion::new(literal.second, literal.first, pair.time),
                )?;
            }
        }
        let step = at(self.clause_steps.as_slice(), clause, NO_NUMBER);
        self.is_lost |= step == NO_NUMBER;
        Ok(Some(DerivationHint::Step(step)))
    }
}
