//! Rows of places.

use numbered_log::{NumberedLog, Operation, OperationId, ProcessId, ProcessIds, ProcessPlace};
use std::alloc::{AllocError, Global};
use total_tables::{at, cell, put, size};

/// The two rows of an operation.
#[derive(Clone, Copy, PartialEq, Eq)]
pub enum RowKind {
    /// Of what stands before the operation.
    Before,
    /// Of what stands after it.
    After,
}

/// A change of an entry of a row: its index in the table of its kind, and its value before.
#[derive(Clone, Copy)]
struct RowChange {
    index: u32,
    old: ProcessPlace,
    kind: RowKind,
}

/// The number of changes, at 12 bytes each, that are kept of any log.
const FEW_CHANGES: usize = 1 << 22;

/// The number of changes that are kept for each operation of a large log.
const CHANGES_OF_EACH: usize = 16;

/// A place of a process.
#[derive(Clone, Copy)]
pub struct RowEntry {
    pub process: ProcessId,
    pub place: ProcessPlace,
}

/// No place.
const NO_BOUND: RowEntry = RowEntry {
    process: ProcessId::FIRST,
    place: ProcessPlace::START,
};

/// Entries of rows of one kind that a new pair changes.
#[derive(Drop)]
pub struct ChangedEntries {
    entries: Vec<RowEntry>,
}

impl ChangedEntries {
    /// No entries, with room for one of each process.
    fn new(alloc: Global, processes: u32) -> Result<ChangedEntries, AllocError> {
        Ok(ChangedEntries {
            entries: Vec::with_capacity(alloc, processes as usize)?,
        })
    }

    /// The number of entries.
    #[inline(always)]
    pub fn count(&self) -> u32 {
        size(self.entries.as_slice())
    }

    /// The entry of this number.
    #[inline(always)]
    pub fn entry(&self, number: u32) -> RowEntry {
        at(self.entries.as_slice(), number, NO_BOUND)
    }
}

/// For each operation two rows with a place for each process: the first of its operations that stands after this one, and the last one
/// that stands before it. As a process is a chain, these say of each two operations whether one stands before the other, in tables of
/// operations times processes, where a bit for each two operations would grow with the square of a log.
pub struct ClosedRows {
    /// The number of processes, which is that of the entries of a row.
    width: u32,
    /// The place after the last where nothing stands after the operation.
    after: Vec<ProcessPlace>,
    /// `START` where nothing stands before it.
    before: Vec<ProcessPlace>,
    changes: Vec<RowChange>,
    /// The most changes that are kept.
    most_changes: usize,
    /// Before the first decision nothing will be taken back, so changes are not kept.
    keeps_changes: bool,
    /// What a new pair says of what stands before its second operation, where that is news.
    floors: ChangedEntries,
    /// What it says of what stands after its first operation.
    ceilings: ChangedEntries,
}

/// Drops the tables in one call. A derived `Drop` would drop each at every exit of a function that owns rows, which makes its proof longer.
impl Drop for ClosedRows {
    fn drop(self) {
        let ClosedRows {
            width: _,
            after: _after,
            before: _before,
            changes: _changes,
            most_changes: _,
            keeps_changes: _,
            floors: _floors,
            ceilings: _ceilings,
        } = self;
    }
}

impl ClosedRows {
    /// The rows of program order alone.
    pub fn new(alloc: Global, log: &NumberedLog) -> Result<ClosedRows, AllocError> {
        let width = log.processes();
        let entries = log.count().wrapping_mul(width) as usize;
        let mut rows = ClosedRows {
            width,
            after: vec![in alloc; ProcessPlace::START; entries]?,
            before: vec![in alloc; ProcessPlace::START; entries]?,
            changes: Vec::new(alloc),
            most_changes: (log.count() as usize)
                .saturating_mul(CHANGES_OF_EACH)
                .max(FEW_CHANGES),
            keeps_changes: false,
            floors: ChangedEntries::new(alloc, width)?,
            ceilings: ChangedEntries::new(alloc, width)?,
        };
        for number in log.operation_ids() {
            rows.set_program_order(log, number);
        }
        Ok(rows)
    }

    /// Sets the rows of the operation to those of program order. Its row of what stands before it has `START` elsewhere from the beginning.
    fn set_program_order(&mut self, log: &NumberedLog, number: OperationId) {
        let operation = log.operation(number);
        for process in self.process_ids() {
            let index = self.index(number, process);
            let mut after = log.end(process);
            if process == operation.process {
                after = operation.place.next();
                let before = operation.place.previous();
                self.set_entry(RowKind::Before, index, before);
            }
            self.set_entry(RowKind::After, index, after);
        }
    }

    /// All processes, by rising numbers.
    #[inline(always)]
    pub fn process_ids(&self) -> ProcessIds {
        ProcessId::first(self.width)
    }

    /// The number of processes.
    #[inline(always)]
    pub fn width(&self) -> u32 {
        self.width
    }

    /// The index of the entry in the table of its kind: rows stand one after the other, by the numbers of operations.
    #[inline(always)]
    fn index(&self, number: OperationId, process: ProcessId) -> u32 {
        cell(number.number(), self.width, process.number())
    }

    /// The entry of the row of this kind at this index.
    #[inline(always)]
    fn entry(&self, kind: RowKind, index: u32) -> ProcessPlace {
        match kind {
            RowKind::Before => at(self.before.as_slice(), index, ProcessPlace::START),
            RowKind::After => at(self.after.as_slice(), index, ProcessPlace::START),
        }
    }

    /// Sets that entry.
    #[inline(always)]
    fn set_entry(&mut self, kind: RowKind, index: u32, place: ProcessPlace) {
        match kind {
            RowKind::Before => put(self.before.as_mut_slice(), index, place),
            RowKind::After => put(self.after.as_mut_slice(), index, place),
        }
    }

    /// The place of the process's first operation that stands after this one.
    #[inline(always)]
    pub fn after(&self, number: OperationId, process: ProcessId) -> ProcessPlace {
        self.entry(RowKind::After, self.index(number, process))
    }

    /// The place of the process's last operation that stands before this one, or `START`.
    #[inline(always)]
    pub fn before(&self, number: OperationId, process: ProcessId) -> ProcessPlace {
        self.entry(RowKind::Before, self.index(number, process))
    }

    /// Returns whether the first operation stands before the second. `NOBODY` has no row, and is said to stand before all: callers leave it out.
    #[inline(always)]
    pub fn stands_before(
        &self,
        log: &NumberedLog,
        first: OperationId,
        second: OperationId,
    ) -> bool {
        let other = log.operation(second);
        self.after(first, other.process) <= other.place
    }

    /// Notes what the new pair says: the places that are news for the rows of its two operations. Of other rows only these entries can
    /// change, as rows are closed. The first operation must not stand before the second yet, so both are news. Entries of an operation's own process
    /// are those of program order, and never change.
    pub fn begin_pair(
        &mut self,
        log: &NumberedLog,
        first: OperationId,
        second: OperationId,
    ) -> Result<(), AllocError> {
        self.floors.entries.clear();
        self.ceilings.entries.clear();
        let earlier = log.operation(first);
        let later = log.operation(second);
        for process in self.process_ids() {
            let mut place = self.before(first, process);
            let mut is_news = place > self.before(second, process);
            if process == earlier.process {
                place = earlier.place;
                is_news = true;
            }
            if is_news && process != later.process {
                self.floors.entries.push(RowEntry { process, place })?;
            }
            let mut place = self.after(second, process);
            if process == later.process {
                place = later.place;
            }
            if place < self.after(first, process) && process != earlier.process {
                self.ceilings.entries.push(RowEntry { process, place })?;
            }
        }
        Ok(())
    }

    /// The entries that the new pair raises in rows of what stands before.
    #[inline(always)]
    pub fn floors(&self) -> &ChangedEntries {
        &self.floors
    }

    /// The entries that the new pair lowers in rows of what stands after.
    #[inline(always)]
    pub fn ceilings(&self) -> &ChangedEntries {
        &self.ceilings
    }

    /// Sets an entry of the operation's row of this kind, and keeps what it was if changes are kept.
    #[inline(always)]
    pub fn change(
        &mut self,
        kind: RowKind,
        number: OperationId,
        bound: RowEntry,
    ) -> Result<(), AllocError> {
        let index = self.index(number, bound.process);
        if self.keeps_changes {
            let old = self.entry(kind, index);
            self.changes.push(RowChange { index, old, kind })?;
        }
        self.set_entry(kind, index, bound.place);
        Ok(())
    }

    /// The place of the process's last operation that stands before this one or is it, or `START`; or of its first operation that stands after
    /// this one or is it. The operation is given by its number, too.
    #[inline(always)]
    pub fn nearest(
        &self,
        kind: RowKind,
        number: OperationId,
        operation: Operation,
        process: ProcessId,
    ) -> ProcessPlace {
        if process == operation.process {
            operation.place
        } else {
            self.entry(kind, self.index(number, process))
        }
    }

    /// Sets the row of what stands before the operation to that of the one before it in its process, which must have been made already.
    pub fn begin_before(&mut self, log: &NumberedLog, number: OperationId) {
        let operation = log.operation(number);
        for process in self.process_ids() {
            let mut place = ProcessPlace::START;
            if process == operation.process {
                place = operation.place.previous();
            } else if operation.place > ProcessPlace::FIRST {
                place = self.before(number.previous(), process);
            }
            let index = self.index(number, process);
            self.set_entry(RowKind::Before, index, place);
        }
    }

    /// Adds to the operation's row of this kind that of one which stands before it, or after it if the kind is `After`, and this one's place.
    #[inline(always)]
    fn join(&mut self, kind: RowKind, log: &NumberedLog, number: OperationId, other: OperationId) {
        let joined = log.operation(other);
        for process in self.process_ids() {
            let place = self.nearest(kind, other, joined, process);
            let index = self.index(number, process);
            let old = self.entry(kind, index);
            let is_news = match kind {
                RowKind::Before => old < place,
                RowKind::After => old > place,
            };
            if is_news {
                self.set_entry(kind, index, place);
            }
        }
    }

    /// Raises the row of what stands before the operation to that of one which stands before it, and this one's place.
    pub fn raise_to(&mut self, log: &NumberedLog, number: OperationId, earlier: OperationId) {
        self.join(RowKind::Before, log, number, earlier);
    }

    /// Lowers the row of what stands after the operation to that of one which stands after it, and this one's place.
    pub fn lower_to(&mut self, log: &NumberedLog, number: OperationId, later: OperationId) {
        self.join(RowKind::After, log, number, later);
    }

    /// Sets the row of what stands after the operation to that of the one behind it in its process, which must have been made already.
    pub fn begin_after(&mut self, log: &NumberedLog, number: OperationId) {
        let operation = log.operation(number);
        let is_last = operation.place >= log.last_place(operation.process);
        for process in self.process_ids() {
            let mut place = log.end(process);
            if process == operation.process {
                place = operation.place.next();
            } else if !is_last {
                place = self.after(number.next(), process);
            }
            let index = self.index(number, process);
            self.set_entry(RowKind::After, index, place);
        }
    }

    /// Returns whether there is no room for a further change. It is asked between two pairs only, so the changes of one pair may go past the room.
    #[inline(always)]
    pub fn is_full(&self) -> bool {
        self.changes.len() >= self.most_changes
    }

    /// Keeps each change from now on, so that it can be undone. Returns how many are kept so far.
    pub fn keep_changes(&mut self) -> usize {
        self.keeps_changes = true;
        self.changes.len()
    }

    /// Undoes changes, the last first, until this number is left, and says whether changes are kept from now on.
    pub fn take_back(&mut self, left: usize, keeps_changes: bool) {
        self.keeps_changes = keeps_changes;
        for _ in left..self.changes.len() {
            let Some(change) = self.changes.pop() else {
                break;
            };
            self.set_entry(change.kind, change.index, change.old);
        }
    }

    /// The sum of all places of both rows, which grows along each schedule: an estimate of twice the operation's place.
    pub fn estimate(&self, number: OperationId) -> u32 {
        let mut sum: u32 = 0;
        for process in self.process_ids() {
            sum = sum
                .wrapping_add(self.before(number, process).number())
                .wrapping_add(self.after(number, process).number());
        }
        sum
    }
}
