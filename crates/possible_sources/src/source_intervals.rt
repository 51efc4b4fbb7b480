//! The possible sources of each reader, as intervals.
//!
//! Writers are sorted by their class, which is a location and a value, then by process and place. A position is a place in this table, from 0; a run is
//! what one process has of a class. A reader has an interval of positions for each run of its class, numbered from 0, whose upper end is excluded.

use crate::interval_ends::IntervalEnds;
use crate::time::Time;
use crate::value_classes::{ClassId, ValueClasses};
use numbered_log::{
    LocationId, NO_NUMBER, NOBODY, NumberedLog, NumberedOrigin, Operation, OperationId, ProcessId,
};
use std::alloc::{AllocError, Global};
use total_tables::{at, put, size};

/// The initial value in place of a writer.
pub const INITIAL_VALUE: OperationId = NOBODY;

/// The bound of an interval that was moved, or the initial value that was lost.
#[derive(Clone, Copy, PartialEq, Eq)]
pub enum LostBound {
    /// Writers up to one of the process are hidden: they and the witness stand in this order, and the witness before the reader.
    Hidden,
    /// Writers of the process from one on stand after the reader.
    Late,
    /// The initial value is hidden by the witness.
    Initial,
}

#[derive(Clone, Copy)]
pub struct LossCause {
    /// The writer that was lost and is nearest to what stays.
    pub writer: OperationId,
    /// The access that hides it, or the reader if it stands after that.
    pub witness: OperationId,
    /// The time of the loss. What it rests on has earlier ones.
    pub time: Time,
}

/// A change of a reader's possible sources: what was lost, when, and by which witness. It is a piece of a reason.
#[derive(Clone, Copy)]
pub struct SourceLoss {
    pub reader: OperationId,
    /// The number of the interval among all, or `NO_NUMBER` if the initial value was lost.
    pub interval: u32,
    pub bound: LostBound,
    pub cause: LossCause,
    /// The bound before, a position among the writers of `ValueClasses`; it has no meaning for the initial value.
    pub old_bound: u32,
    /// The number of sources before, so that it is not counted again when the loss is taken back.
    old_count: u32,
    /// The loss before this one at the same bound, or `NO_NUMBER`. By these an explanation finds the bound as it was at an earlier time.
    pub previous: u32,
}

/// Nothing lost.
const NO_LOSS: SourceLoss = SourceLoss {
    reader: NOBODY,
    interval: NO_NUMBER,
    bound: LostBound::Initial,
    cause: LossCause {
        writer: NOBODY,
        witness: NOBODY,
        time: Time::START,
    },
    old_bound: 0,
    old_count: 0,
    previous: NO_NUMBER,
};

/// The writers that an interval loses.
#[derive(Clone, Copy)]
pub enum LostPart {
    /// Those before this position.
    Before(u32),
    /// Those from this position on.
    From(u32),
}

/// For each reader, which is an operation or, behind all operations, the final value of a location, its possible sources: of each process
/// that writes its value an interval of the positions of a run of writers, since rows rise along a process; and maybe the initial value. So
/// tables have an entry for each reader and process, and not for each source.
pub struct SourceIntervals {
    /// The number of operations, and so the first reader that is a final value.
    operations: u32,
    /// For each reader where its intervals begin, and where all end.
    begins: Vec<u32>,
    /// For each reader its class, if it has one.
    classes: Vec<ClassId>,
    /// For each interval its first position among the writers of `ValueClasses`, and the one behind its last. An interval is empty if they are equal.
    lows: IntervalEnds,
    highs: IntervalEnds,
    /// For each reader whether the initial value is possible by program order and origins. A later loss leaves that as it is.
    is_initial: Vec<bool>,
    /// For each reader the number of the loss of the initial value, or `NO_NUMBER`.
    initial_losses: Vec<u32>,
    /// For each reader the number of its possible sources, or `NO_NUMBER` of what reads nothing.
    counts: Vec<u32>,
    /// All losses, by their times. A loss is named by its place here.
    losses: Vec<SourceLoss>,
}

/// Drops each table in one call. A derived `Drop` would drop each at every exit of a function that owns sources, which makes its proof longer.
impl Drop for SourceIntervals {
    fn drop(self) {
        let SourceIntervals {
            operations: _,
            begins: _begins,
            classes: _classes,
            lows: _lows,
            highs: _highs,
            is_initial: _is_initial,
            initial_losses: _initial_losses,
            counts: _counts,
            losses: _losses,
        } = self;
    }
}

/// For each location the last writer that was met, with its process.
#[derive(Drop)]
struct LatestWrites {
    /// By location, `NOBODY` before the first. The process of a writer is asked, so nothing is cleared when a process begins.
    writers: Vec<OperationId>,
}

impl SourceIntervals {
    /// The sources that are possible by program order and origins.
    pub fn new(
        alloc: Global,
        log: &NumberedLog,
        classes: &ValueClasses,
    ) -> Result<SourceIntervals, AllocError> {
        let readers = log.count().wrapping_add(log.locations());
        let mut sources = SourceIntervals::of_classes(alloc, log, classes, readers)?;
        let mut last = LatestWrites {
            writers: vec![in alloc; NOBODY; log.locations() as usize]?,
        };
        for number in log.operation_ids() {
            sources.narrow_by_program(log, classes, number, &last);
            let operation = log.operation(number);
            // A read-modify-write comes in after it was narrowed, so it does not read from itself.
            if operation.writes {
                put(
                    last.writers.as_mut_slice(),
                    operation.location.number(),
                    number,
                );
            }
        }
        sources.narrow_final_values(alloc, log, classes)?;
        Ok(sources)
    }

    /// For each reader all writers of its class.
    fn of_classes(
        alloc: Global,
        log: &NumberedLog,
        classes: &ValueClasses,
        readers: u32,
    ) -> Result<SourceIntervals, AllocError> {
        let mut sources = SourceIntervals {
            operations: log.count(),
            begins: Vec::new(alloc),
            classes: vec![in alloc; ClassId::NONE; readers as usize]?,
            lows: IntervalEnds::new(alloc),
            highs: IntervalEnds::new(alloc),
            is_initial: vec![in alloc; false; readers as usize]?,
            initial_losses: vec![in alloc; NO_NUMBER; readers as usize]?,
            counts: vec![in alloc; NO_NUMBER; readers as usize]?,
            losses: Vec::new(alloc),
        };
        for reader in OperationId::first(readers) {
            sources.enter(log, classes, reader)?;
        }
        let end = sources.lows.count();
        sources.begins.push(end)?;
        Ok(sources)
    }

    /// Enters the reader with all writers of its class, and the initial value if that is what it reads.
    fn enter(
        &mut self,
        log: &NumberedLog,
        classes: &ValueClasses,
        reader: OperationId,
    ) -> Result<(), AllocError> {
        let begin = self.lows.count();
        self.begins.push(begin)?;
        let Some((location, value)) = self.reads(log, reader) else {
            return Ok(());
        };
        let class = classes.class(location, value);
        put(self.classes.as_mut_slice(), reader.number(), class);
        let initial = log.initial(location) == Some(value);
        put(self.is_initial.as_mut_slice(), reader.number(), initial);
        let mut count = initial as u32;
        for run in 0..classes.run_count(class) {
            let run = classes.first_run(class).wrapping_add(run);
            self.lows.add(classes.begin(run))?;
            self.highs.add(classes.end(run))?;
            count = count
                .wrapping_add(classes.end(run))
                .wrapping_sub(classes.begin(run));
        }
        put(self.counts.as_mut_slice(), reader.number(), count);
        Ok(())
    }

    /// The location and the value that the reader reads.
    fn reads(&self, log: &NumberedLog, reader: OperationId) -> Option<(LocationId, u64)> {
        if reader.number() < self.operations {
            let operation = log.operation(reader);
            if operation.reads {
                Some((operation.location, operation.needed))
            } else {
                None
            }
        } else {
            let location = LocationId::new(reader.number().wrapping_sub(self.operations));
            match log.last(location) {
                Some(value) => Some((location, value)),
                None => None,
            }
        }
    }

    /// Leaves the reading operation of the writers of its own process the last one before it, and what its origin allows: that one hides
    /// those before it, and the others come too late.
    fn narrow_by_program(
        &mut self,
        log: &NumberedLog,
        classes: &ValueClasses,
        number: OperationId,
        last: &LatestWrites,
    ) {
        let operation = log.operation(number);
        if !operation.reads {
            return;
        }
        let own = last.of(log, operation);
        if own != NOBODY {
            put(self.is_initial.as_mut_slice(), number.number(), false);
        }
        for run in 0..self.intervals(number) {
            let process = self.process(classes, number, run);
            if process == operation.process {
                self.keep_only(classes, number, run, own);
            }
        }
        self.narrow_by_origin(classes, number, operation);
        self.count_again(number);
    }

    /// Leaves the reading operation what its origin allows.
    fn narrow_by_origin(
        &mut self,
        classes: &ValueClasses,
        number: OperationId,
        operation: Operation,
    ) {
        match operation.origin {
            NumberedOrigin::Any => {}
            NumberedOrigin::Initial => {
                for run in 0..self.intervals(number) {
                    self.keep_only(classes, number, run, NOBODY);
                }
            }
            NumberedOrigin::Operation(origin) => {
                put(self.is_initial.as_mut_slice(), number.number(), false);
                for run in 0..self.intervals(number) {
                    self.keep_only(classes, number, run, origin);
                }
            }
        }
    }

    /// Leaves this writer alone in the interval, or none if it is not there, as `NOBODY` is in none. That is no loss: nothing gives the others back.
    fn keep_only(
        &mut self,
        classes: &ValueClasses,
        reader: OperationId,
        run: u32,
        writer: OperationId,
    ) {
        let interval = self.interval(reader, run);
        let low = self.lows.position(interval);
        let high = self.highs.position(interval);
        let position = classes.position_of(writer);
        if low <= position && position < high {
            self.lows.set(interval, position);
            self.highs.set(interval, position.wrapping_add(1));
        } else {
            self.highs.set(interval, low);
        }
    }

    /// Counts the sources of the reader anew.
    fn count_again(&mut self, reader: OperationId) {
        let mut count = at(self.is_initial.as_slice(), reader.number(), false) as u32;
        for run in 0..self.intervals(reader) {
            let width = self.high(reader, run).saturating_sub(self.low(reader, run));
            count = count.wrapping_add(width);
        }
        self.set_count(reader, count);
    }

    /// Leaves each final value of each process its last writer.
    fn narrow_final_values(
        &mut self,
        alloc: Global,
        log: &NumberedLog,
        classes: &ValueClasses,
    ) -> Result<(), AllocError> {
        let mut last = vec![in alloc; NOBODY; log.locations() as usize]?;
        for process in log.process_ids() {
            for place in log.places(process) {
                let number = log.number(process, place);
                let operation = log.operation(number);
                if operation.writes {
                    put(last.as_mut_slice(), operation.location.number(), number);
                }
            }
            for location in log.location_ids() {
                let reader = log.final_reader(location);
                let writer = at(last.as_slice(), location.number(), NOBODY);
                if writer != NOBODY {
                    put(self.is_initial.as_mut_slice(), reader.number(), false);
                    // It is empty again for the next process.
                    put(last.as_mut_slice(), location.number(), NOBODY);
                }
                for run in 0..self.intervals(reader) {
                    if self.process(classes, reader, run) == process {
                        self.keep_only(classes, reader, run, writer);
                    }
                }
            }
        }
        for location in log.location_ids() {
            let reader = log.final_reader(location);
            if self.is_reader(reader) {
                self.count_again(reader);
            }
        }
        Ok(())
    }

    /// The number of readers, those that read nothing among them.
    pub fn readers(&self) -> u32 {
        size(self.counts.as_slice())
    }

    /// The class of the reader, or none.
    #[inline(always)]
    pub fn class(&self, reader: OperationId) -> ClassId {
        at(self.classes.as_slice(), reader.number(), ClassId::NONE)
    }

    /// The number of the reader's intervals, empty ones among them.
    #[inline(always)]
    pub fn intervals(&self, reader: OperationId) -> u32 {
        at(self.begins.as_slice(), reader.next().number(), 0).saturating_sub(at(
            self.begins.as_slice(),
            reader.number(),
            0,
        ))
    }

    /// The number among all of the reader's interval of this number, counted from 0.
    #[inline(always)]
    pub fn interval(&self, reader: OperationId, run: u32) -> u32 {
        at(self.begins.as_slice(), reader.number(), 0).wrapping_add(run)
    }

    /// The process of the interval.
    #[inline(always)]
    pub fn process(&self, classes: &ValueClasses, reader: OperationId, run: u32) -> ProcessId {
        classes.process(classes.first_run(self.class(reader)).wrapping_add(run))
    }

    /// The first position of the interval.
    #[inline(always)]
    pub fn low(&self, reader: OperationId, run: u32) -> u32 {
        self.lows.position(self.interval(reader, run))
    }

    /// The position behind the interval.
    #[inline(always)]
    pub fn high(&self, reader: OperationId, run: u32) -> u32 {
        self.highs.position(self.interval(reader, run))
    }

    /// Returns whether it reads anything.
    #[inline(always)]
    pub fn is_reader(&self, reader: OperationId) -> bool {
        self.count(reader) != NO_NUMBER
    }

    /// The number of its possible sources when it was last looked at, or `NO_NUMBER` of what reads nothing.
    #[inline(always)]
    pub fn count(&self, reader: OperationId) -> u32 {
        at(self.counts.as_slice(), reader.number(), NO_NUMBER)
    }

    /// Returns whether it reads and has other than one possible source.
    #[inline(always)]
    pub fn has_several(&self, reader: OperationId) -> bool {
        let count = self.count(reader);
        count != 1 && count != NO_NUMBER
    }

    /// Returns whether the initial value is possible.
    #[inline(always)]
    pub fn has_initial(&self, reader: OperationId) -> bool {
        at(self.is_initial.as_slice(), reader.number(), false)
            && at(self.initial_losses.as_slice(), reader.number(), NO_NUMBER) == NO_NUMBER
    }

    /// A possible source, the only one if there is one.
    pub fn source(&self, classes: &ValueClasses, reader: OperationId) -> OperationId {
        if !self.has_initial(reader) {
            for run in 0..self.intervals(reader) {
                if self.low(reader, run) < self.high(reader, run) {
                    return classes.writer(self.low(reader, run));
                }
            }
        }
        INITIAL_VALUE
    }

    /// Returns whether the writer is a possible source of the reader.
    #[inline(always)]
    pub fn may_read(
        &self,
        classes: &ValueClasses,
        reader: OperationId,
        writer: OperationId,
    ) -> bool {
        if writer == INITIAL_VALUE {
            return self.has_initial(reader);
        }
        let class = self.class(reader);
        if class == ClassId::NONE || classes.class_of(writer) != class {
            return false;
        }
        let run = classes
            .run_of(writer)
            .wrapping_sub(classes.first_run(class));
        let position = classes.position_of(writer);
        self.low(reader, run) <= position && position < self.high(reader, run)
    }

    /// Sets the number of possible sources of the reader. The losses that make it less are noted before, since each keeps the number before it.
    pub fn set_count(&mut self, reader: OperationId, count: u32) {
        put(self.counts.as_mut_slice(), reader.number(), count);
    }

    /// Takes writers from an interval: those before a position, which are hidden, or those from a position on, which stand after the reader.
    pub fn narrow(
        &mut self,
        reader: OperationId,
        run: u32,
        lost: LostPart,
        cause: LossCause,
    ) -> Result<(), AllocError> {
        let interval = self.interval(reader, run);
        let number = self.losses();
        let (bound, (old_bound, previous)) = match lost {
            LostPart::Before(low) => (LostBound::Hidden, self.lows.lose(interval, low, number)),
            LostPart::From(high) => (LostBound::Late, self.highs.lose(interval, high, number)),
        };
        self.note_loss(SourceLoss {
            reader,
            interval,
            bound,
            cause,
            old_bound,
            old_count: 0,
            previous,
        })
    }

    /// Takes the initial value from the reader, which the witness hides.
    pub fn hide_initial(
        &mut self,
        reader: OperationId,
        cause: LossCause,
    ) -> Result<(), AllocError> {
        let number = self.losses();
        put(self.initial_losses.as_mut_slice(), reader.number(), number);
        self.note_loss(SourceLoss {
            reader,
            interval: NO_NUMBER,
            bound: LostBound::Initial,
            cause,
            old_bound: 0,
            old_count: 0,
            previous: NO_NUMBER,
        })
    }

    /// Notes the loss, with the number of sources before it.
    fn note_loss(&mut self, loss: SourceLoss) -> Result<(), AllocError> {
        let old_count = self.count(loss.reader);
        self.losses.push(SourceLoss { old_count, ..loss })?;
        Ok(())
    }

    pub fn losses(&self) -> u32 {
        size(self.losses.as_slice())
    }

    /// Gives back what was lost, the last first, until this number of losses is left.
    pub fn give_back(&mut self, left: u32) {
        for _ in left..self.losses() {
            let Some(loss) = self.losses.pop() else {
                break;
            };
            self.undo(loss);
        }
    }

    /// Undoes the loss, which must be the last that is left: the bound and the count become what they were before it.
    fn undo(&mut self, loss: SourceLoss) {
        match loss.bound {
            LostBound::Hidden => {
                self.lows.lose(loss.interval, loss.old_bound, loss.previous);
            }
            LostBound::Late => {
                self.highs
                    .lose(loss.interval, loss.old_bound, loss.previous);
            }
            LostBound::Initial => {
                put(
                    self.initial_losses.as_mut_slice(),
                    loss.reader.number(),
                    NO_NUMBER,
                );
            }
        }
        self.set_count(loss.reader, loss.old_count);
    }

    /// The number of the last loss at the lower bound of the interval, or `NO_NUMBER`.
    #[inline(always)]
    pub fn last_hidden(&self, interval: u32) -> u32 {
        self.lows.last_loss(interval)
    }

    /// The number of the last loss at the upper bound of the interval, or `NO_NUMBER`.
    #[inline(always)]
    pub fn last_late(&self, interval: u32) -> u32 {
        self.highs.last_loss(interval)
    }

    /// The number of the loss of the reader's initial value, or `NO_NUMBER`.
    #[inline(always)]
    pub fn initial_loss(&self, reader: OperationId) -> u32 {
        at(self.initial_losses.as_slice(), reader.number(), NO_NUMBER)
    }

    /// Returns whether the initial value was a possible source by program order.
    pub fn had_initial(&self, reader: OperationId) -> bool {
        at(self.is_initial.as_slice(), reader.number(), false)
    }

    #[inline(always)]
    pub fn loss(&self, number: u32) -> SourceLoss {
        at(self.losses.as_slice(), number, NO_LOSS)
    }
}

impl LatestWrites {
    /// The last writer of the operation's location that was met, if it is of the operation's process.
    fn of(&self, log: &NumberedLog, operation: Operation) -> OperationId {
        let writer = at(self.writers.as_slice(), operation.location.number(), NOBODY);
        if writer != NOBODY && log.operation(writer).process == operation.process {
            writer
        } else {
            NOBODY
        }
    }
}
