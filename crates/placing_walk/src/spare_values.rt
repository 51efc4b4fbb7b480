//! How many plain writes may still write over each value.
//!
//! Past the end of a table `at` reads as its last argument, and `put` does nothing; so arithmetic may wrap, and a wrong place makes no fault.

use numbered_log::{LocationId, NOBODY, NumberedLog, OperationId};
use order_propagation::Propagation;
use possible_sources::ClassId;
use std::alloc::{AllocError, Global};
use total_tables::{at, put};

/// For each class how many of its writes no update needs. Each write of a value is read by at most one update, and each update reads one, so
/// a plain write that comes over a value costs that value a write. If no write of it can be spared, an update at the end has none to read.
pub(crate) struct SpareValues {
    /// For each class the number; of less than none its complement.
    counts: Vec<u32>,
    /// For each operation the class of what it leaves, or none.
    classes: Vec<ClassId>,
    /// The same of the initial value of each location.
    initial_classes: Vec<ClassId>,
}

/// Drops each table in one call. A derived `Drop` would drop each at every exit of a function that owns them, which makes its proof longer.
impl Drop for SpareValues {
    fn drop(self) {
        let SpareValues {
            counts: _counts,
            classes: _classes,
            initial_classes: _initial_classes,
        } = self;
    }
}

/// A number from which on a count is less than none.
const LESS_THAN_NONE: u32 = 1 << 31;

/// A count of what is not scarce.
const PLENTY: u32 = LESS_THAN_NONE - 1;

/// Returns whether more than an eighth of the operations are updates. Of such a log values that are scarce are counted here, and `schedule_search` tries beams and
/// gives its walks other reaches and shares: this choice changes what is found, and nothing that is found is believed.
pub fn has_many_updates(log: &NumberedLog) -> bool {
    let mut updates: u32 = 0;
    for number in log.operation_ids() {
        let operation = log.operation(number);
        if operation.reads && operation.writes {
            updates = updates.wrapping_add(1);
        }
    }
    updates > log.count() / 8
}

impl SpareValues {
    /// The numbers before anything is placed. If updates are few, nothing is scarce. Classes of operations then stay none, of which no number is kept: it
    /// reads as `PLENTY`.
    pub(crate) fn new(alloc: Global, order: &Propagation<'_>) -> Result<SpareValues, AllocError> {
        let log = order.log();
        let mut spare = SpareValues {
            counts: vec![in alloc; 0; order.classes().count() as usize]?,
            classes: vec![in alloc; ClassId::NONE; log.count() as usize]?,
            initial_classes: vec![in alloc; ClassId::NONE; log.locations() as usize]?,
        };
        if !has_many_updates(log) {
            return Ok(spare);
        }
        for number in log.operation_ids() {
            spare.count_operation(order, number);
        }
        for location in log.location_ids() {
            spare.count_ends(order, log, location);
        }
        Ok(spare)
    }

    /// Counts a writer for its class, and an update against the class that it reads.
    fn count_operation(&mut self, order: &Propagation<'_>, number: OperationId) {
        let operation = order.log().operation(number);
        if operation.writes {
            let class = order.classes().class_of(number);
            put(self.classes.as_mut_slice(), number.number(), class);
            self.change(class, 1);
            if operation.reads {
                let needed = order.classes().class(operation.location, operation.needed);
                self.change(needed, u32::MAX);
            }
        }
    }

    /// Counts the initial and the final value of the location.
    fn count_ends(&mut self, order: &Propagation<'_>, log: &NumberedLog, location: LocationId) {
        if let Some(value) = log.initial(location) {
            let class = order.classes().class(location, value);
            put(
                self.initial_classes.as_mut_slice(),
                location.number(),
                class,
            );
            self.change(class, 1);
        }
        if let Some(value) = log.last(location) {
            let class = order.classes().class(location, value);
            self.change(class, u32::MAX);
        }
    }

    /// Adds to the number of the class. A difference below 0 is added as its complement.
    fn change(&mut self, class: ClassId, difference: u32) {
        let count = at(self.counts.as_slice(), class.number(), 0);
        put(
            self.counts.as_mut_slice(),
            class.number(),
            count.wrapping_add(difference),
        );
    }

    /// The class of what the location holds: of what this operation has written, or of the initial value if no operation has written there (`NOBODY`).
    #[inline(always)]
    fn class_held(&self, location: LocationId, held: OperationId) -> ClassId {
        if held == NOBODY {
            at(
                self.initial_classes.as_slice(),
                location.number(),
                ClassId::NONE,
            )
        } else {
            at(self.classes.as_slice(), held.number(), ClassId::NONE)
        }
    }

    /// Notes that a plain write comes over what the location holds.
    pub(crate) fn lose(&mut self, location: LocationId, held: OperationId) {
        let class = self.class_held(location, held);
        self.change(class, u32::MAX);
    }

    /// Notes that such a write is taken back.
    pub(crate) fn give_back(&mut self, location: LocationId, held: OperationId) {
        let class = self.class_held(location, held);
        self.change(class, 1);
    }

    /// Number of plain writes that may still come over the value that the location holds.
    pub(crate) fn of_held(&self, location: LocationId, held: OperationId) -> u32 {
        let class = self.class_held(location, held);
        let count = at(self.counts.as_slice(), class.number(), PLENTY);
        if count >= LESS_THAN_NONE { 0 } else { count }
    }
}
