//! Lines that a reader has a source, with the pieces that say of each lost source why it is none.

use crate::explanation::Explanation;
use conflict_analysis::WayQuestion;
use numbered_log::{NOBODY, NumberedLog, NumberedOrigin, OperationId, ProcessPlace};
use order_propagation::Propagation;
use possible_sources::{EarlierInterval, Time};
use std::alloc::AllocError;

/// Returns whether the reading operation may read the initial value by the trace's values and origins alone.
fn wants_initial(log: &NumberedLog, reader: OperationId) -> bool {
    let operation = log.operation(reader);
    if matches!(operation.origin, NumberedOrigin::Operation(_origin)) {
        return false;
    }
    log.initial(operation.location) == Some(operation.needed)
}

/// The last writer of the reader's location before it in its process, or `NOBODY`. If it is there, the initial value was never a source.
fn own_writer(log: &NumberedLog, reader: OperationId) -> OperationId {
    let operation = log.operation(reader);
    for place in (1..operation.place.number()).rev().map(ProcessPlace::new) {
        let number = log.number(operation.process, place);
        let other = log.operation(number);
        if other.writes && other.location == operation.location {
            return number;
        }
    }
    NOBODY
}

impl Explanation {
    /// Begins the line that the reader, an operation or a final value, has a source, with the pieces for what it had lost at this time. Notes
    /// the sources that it had left.
    pub(crate) fn begin_sources(
        &mut self,
        order: &Propagation<'_>,
        reader: OperationId,
        time: Time,
    ) -> Result<(), AllocError> {
        if !order.log().is_final(reader) {
            self.lines.begin(b's')?;
            self.lines.operation(reader)?;
        } else {
            self.lines.begin(b'l')?;
            let location = order.log().final_location(reader);
            self.lines.location(location)?;
        }
        self.add_pieces(order, reader, time)
    }

    /// Adds the pieces for what the reader had lost at this time to the line at hand, behind the words that name the reader, and notes in `earlier`
    /// the writers that it had left. The last writer of a location is an operation, so of a final value there is no piece for the initial one.
    pub(crate) fn add_pieces(
        &mut self,
        order: &Propagation<'_>,
        reader: OperationId,
        time: Time,
    ) -> Result<(), AllocError> {
        self.earlier.clear();
        for run in 0..order.sources().intervals(reader) {
            let interval = order.sources().interval_at(reader, run, time);
            self.add_interval(order, reader, interval)?;
        }
        if !order.log().is_final(reader) {
            self.add_initial(order, reader, time)?;
        }
        Ok(())
    }

    /// Adds the pieces of one interval, and notes what was left of it.
    fn add_interval(
        &mut self,
        order: &Propagation<'_>,
        reader: OperationId,
        interval: EarlierInterval,
    ) -> Result<(), AllocError> {
        if let Some(cause) = interval.low.cause {
            self.lines.letter(b'h')?;
            self.lines.operation(cause.witness)?;
            self.lines.operation(cause.writer)?;
            self.ask(
                order,
                WayQuestion::new(cause.writer, cause.witness, cause.time),
            )?;
            if !order.log().is_final(reader) {
                self.ask(order, WayQuestion::new(cause.witness, reader, cause.time))?;
            }
        }
        if let Some(cause) = interval.high.cause {
            self.lines.letter(b'f')?;
            self.lines.operation(cause.writer)?;
            self.ask(order, WayQuestion::new(reader, cause.writer, cause.time))?;
        }
        self.earlier.add(interval)
    }

    /// Adds the piece for the initial value, if the reader had lost it.
    fn add_initial(
        &mut self,
        order: &Propagation<'_>,
        reader: OperationId,
        time: Time,
    ) -> Result<(), AllocError> {
        if !wants_initial(order.log(), reader) {
            return Ok(());
        }
        if !order.sources().had_initial(reader) {
            let writer = own_writer(order.log(), reader);
            return self.add_hidden_initial(writer);
        }
        if let Some(cause) = order.sources().initial_loss_at(reader, time) {
            self.ask(order, WayQuestion::new(cause.witness, reader, cause.time))?;
            return self.add_hidden_initial(cause.witness);
        }
        Ok(())
    }

    /// Adds the piece that this witness hides the initial value.
    fn add_hidden_initial(&mut self, witness: OperationId) -> Result<(), AllocError> {
        self.is_lost |= witness == NOBODY;
        self.lines.letter(b'i')?;
        self.lines.operation(witness)
    }
}
