//! The reasons of pairs and of lost sources.
//!
//! To ask why one operation stands before another is to mark the older pairs that lead from the first to the second, as pairs that the conflict rests on. An
//! operation is named if the conflict rests on it, be it an end of such a pair or not; a core has the operations that are named.

use crate::analysis::Analysis;
use crate::learned_clauses::{LearnedClauses, Literal};
use closed_rows::{OrderedPair, PairReason};
use numbered_log::{LocationId, NOBODY, OperationId};
use order_propagation::Propagation;
use possible_sources::{EarlierInterval, EarlierSources, Time};
use std::alloc::AllocError;

/// The order to ask for in an interval that the reader had left, if the pair stands before or after all sources of the reader; none if nothing is left of the
/// interval. The first source that was left stands before the others of its interval, and the last one behind them, so it is enough to ask for one.
pub fn order_beside(
    order: &Propagation<'_>,
    earlier: &EarlierSources,
    run: u32,
    pair: OrderedPair,
) -> Option<Literal> {
    let (first, second) = if matches!(pair.reason, PairReason::BeforeReader(_)) {
        (pair.first, earlier.first(order.classes(), run))
    } else {
        (earlier.last(order.classes(), run), pair.second)
    };
    if first == NOBODY || second == NOBODY {
        return None;
    }
    Some(Literal { first, second })
}

impl Analysis {
    /// Asks why the pair was added.
    pub(crate) fn ask_reason(
        &mut self,
        order: &Propagation<'_>,
        clauses: &LearnedClauses,
        pair: OrderedPair,
    ) -> Result<(), AllocError> {
        match pair.reason {
            PairReason::BeforeReader(reader) => self.ask_beside(order, reader, pair),
            PairReason::AfterReader(reader) => self.ask_beside(order, reader, pair),
            PairReason::BeforeSource(reader) => {
                self.ask_sources(order, reader, pair.time)?;
                self.ask(order, pair.first, reader, pair.time)
            }
            PairReason::BeforeLast(reader) => self.ask_sources(order, reader, pair.time),
            PairReason::Learned(clause) => {
                self.used.push(clause)?;
                self.ask_others(order, clauses.literals(clause), pair)
            }
            PairReason::Given => Ok(()),
            PairReason::Timed => Ok(()),
            PairReason::Decided => Ok(()),
            PairReason::Guessed => Ok(()),
        }
    }

    /// Asks why the first operation of the pair stands before all sources of the reader, or why the second one stands after all of them.
    fn ask_beside(
        &mut self,
        order: &Propagation<'_>,
        reader: OperationId,
        pair: OrderedPair,
    ) -> Result<(), AllocError> {
        self.ask_sources(order, reader, pair.time)?;
        for run in 0..self.earlier.intervals() {
            let beside = order_beside(order, &self.earlier, run, pair);
            if let Some(asked) = beside {
                self.ask(order, asked.first, asked.second, pair.time)?;
            }
        }
        Ok(())
    }

    /// Asks why the literals other than the pair do not hold.
    fn ask_others(
        &mut self,
        order: &Propagation<'_>,
        literals: &[Literal],
        pair: OrderedPair,
    ) -> Result<(), AllocError> {
        for literal in literals {
            if literal.first != pair.first || literal.second != pair.second {
                self.ask(order, literal.second, literal.first, pair.time)?;
            }
        }
        Ok(())
    }

    /// Asks why the reader lost the sources that it had lost at this time, and notes those that it had left. These are in `earlier` afterwards, until the
    /// next call.
    pub fn ask_sources(
        &mut self,
        order: &Propagation<'_>,
        reader: OperationId,
        time: Time,
    ) -> Result<(), AllocError> {
        self.name(reader)?;
        if order.log().is_final(reader) {
            self.name_last_writer(order, order.log().final_location(reader))?;
        }
        self.earlier.clear();
        for run in 0..order.sources().intervals(reader) {
            let interval = order.sources().interval_at(reader, run, time);
            self.ask_interval(order, reader, interval)?;
        }
        if order.sources().had_initial(reader) {
            if let Some(cause) = order.sources().initial_loss_at(reader, time) {
                self.name(cause.witness)?;
                self.ask(order, cause.witness, reader, cause.time)?;
            }
        }
        Ok(())
    }

    /// Names the last writer of the location in some process: a part keeps the final value only if it has a writer.
    fn name_last_writer(
        &mut self,
        order: &Propagation<'_>,
        location: LocationId,
    ) -> Result<(), AllocError> {
        for number in (0..order.log().count()).rev().map(OperationId::new) {
            self.count_look();
            let operation = order.log().operation(number);
            if operation.writes && operation.location == location {
                return self.name(number);
            }
        }
        Ok(())
    }

    /// Asks why the first sources of the interval are hidden and its last ones come too late, and notes what was left of it.
    fn ask_interval(
        &mut self,
        order: &Propagation<'_>,
        reader: OperationId,
        interval: EarlierInterval,
    ) -> Result<(), AllocError> {
        let EarlierInterval { low, high } = interval;
        if let Some(cause) = low.cause {
            self.name(cause.writer)?;
            self.name(cause.witness)?;
            self.ask(order, cause.writer, cause.witness, cause.time)?;
            if !order.log().is_final(reader) {
                self.ask(order, cause.witness, reader, cause.time)?;
            }
        }
        if let Some(cause) = high.cause {
            self.name(cause.writer)?;
            // A reader that stands before the first writer that was lost stands before those behind it, too.
            self.ask(order, reader, cause.writer, cause.time)?;
        }
        if order.log().is_final(reader) && low.position < high.position {
            self.name(order.classes().writer(low.position))?;
        }
        self.earlier.add(interval)
    }
}
