//! A log whose values have numbers.

use numbered_log::{LocationId, NumberedLog, NumberedOrigin, OperationId, ProcessId, ProcessPlace};
use std::alloc::{AllocError, Global};
use total_tables::{at, put, size};

/// A value of a location, by number: equal values of two locations have two numbers.
#[derive(Clone, Copy, PartialEq, Eq)]
pub(crate) struct ValueId {
    number: u32,
}

impl ValueId {
    /// No value: what a plain write needs, what a plain read leaves, and what a location holds at first if its initial value is not known.
    pub(crate) const NONE: ValueId = ValueId { number: u32::MAX };

    fn new(number: u32) -> ValueId {
        ValueId { number }
    }

    #[inline(always)]
    pub(crate) fn number(self) -> u32 {
        self.number
    }
}

/// What an operation needs its location to hold, and what it leaves there.
#[derive(Clone, Copy)]
pub(crate) struct Access {
    pub(crate) location: LocationId,
    pub(crate) needed: ValueId,
    pub(crate) left: ValueId,
}

/// The access in place of one that is not there: it changes nothing.
const NO_ACCESS: Access = Access {
    location: LocationId::NONE,
    needed: ValueId::NONE,
    left: ValueId::NONE,
};

impl Access {
    /// Returns whether it changes what its location holds. A read does not, nor does an update that leaves what it reads.
    #[inline(always)]
    pub(crate) fn changes(self) -> bool {
        self.left != ValueId::NONE && self.left != self.needed
    }

    /// Returns whether it reads nothing, as a plain write.
    #[inline(always)]
    pub(crate) fn needs_nothing(self) -> bool {
        self.needed == ValueId::NONE
    }
}

/// The values that were met so far, each with its location. A value's number is its place.
#[derive(Drop)]
struct Values {
    met: Vec<(LocationId, u64)>,
}

impl Values {
    /// The number of the value, which is the next one if it is met for the first time. Logs are short, so all that were met are looked through.
    fn number(&mut self, location: LocationId, value: u64) -> Result<ValueId, AllocError> {
        let count = size(self.met.as_slice());
        for number in 0..count {
            let (other, held) = at(self.met.as_slice(), number, (LocationId::NONE, 0));
            if other == location && held == value {
                return Ok(ValueId::new(number));
            }
        }
        self.met.push((location, value))?;
        Ok(ValueId::new(count))
    }

    /// The number of a value that may not be known, or none.
    fn number_of_known(
        &mut self,
        location: LocationId,
        value: Option<u64>,
    ) -> Result<ValueId, AllocError> {
        match value {
            Some(value) => self.number(location, value),
            None => Ok(ValueId::NONE),
        }
    }
}

/// A log, and the numbers of its values.
pub(crate) struct ValuedLog<'a> {
    log: &'a NumberedLog,
    /// For each operation what it needs and leaves.
    accesses: Vec<Access>,
    /// For each location what it holds before all operations, and what it has to hold in the end, or none if that is not known.
    initial: Vec<ValueId>,
    last: Vec<ValueId>,
    /// For each value how often a location comes to hold it, and how many updates and final values take it away or keep it: each needs one of these times for
    /// itself.
    times: Vec<u32>,
    takers: Vec<u32>,
}

/// Drops the tables in one call. A derived `Drop` would drop each at every exit of a function that owns a log, which makes its proof longer.
impl Drop for ValuedLog<'_> {
    fn drop(self) {
        let ValuedLog {
            log: _,
            accesses: _accesses,
            initial: _initial,
            last: _last,
            times: _times,
            takers: _takers,
        } = self;
    }
}

/// Adds one to the value's entry. There is none for `ValueId::NONE`.
fn add_one(table: &mut Vec<u32>, value: ValueId) {
    let more = at(table.as_slice(), value.number(), 0).wrapping_add(1);
    put(table.as_mut_slice(), value.number(), more);
}

impl<'a> ValuedLog<'a> {
    /// Numbers the values of the log, or gives none if it says where values come from: that is not heeded here.
    pub(crate) fn new(
        alloc: Global,
        log: &'a NumberedLog,
    ) -> Result<Option<ValuedLog<'a>>, AllocError> {
        let mut values = Values {
            met: Vec::new(alloc),
        };
        let mut valued = ValuedLog {
            log,
            accesses: Vec::new(alloc),
            initial: Vec::new(alloc),
            last: Vec::new(alloc),
            times: Vec::new(alloc),
            takers: Vec::new(alloc),
        };
        for number in log.operation_ids() {
            if !matches!(log.operation(number).origin, NumberedOrigin::Any) {
                return Ok(None);
            }
            valued.add_access(number, &mut values)?;
        }
        // A location without operations holds in the end what it held at first, so it is no part of a state.
        for location in LocationId::first(valued.locations_of_accesses()) {
            let initial = values.number_of_known(location, log.initial(location))?;
            valued.initial.push(initial)?;
            let last = values.number_of_known(location, log.last(location))?;
            valued.last.push(last)?;
        }
        valued.count_all(alloc, size(values.met.as_slice()))?;
        Ok(Some(valued))
    }

    /// Adds what the operation needs and leaves. Operations are added by rising numbers.
    fn add_access(&mut self, number: OperationId, values: &mut Values) -> Result<(), AllocError> {
        let operation = self.log.operation(number);
        let mut access = Access {
            location: operation.location,
            ..NO_ACCESS
        };
        if operation.reads {
            access.needed = values.number(operation.location, operation.needed)?;
        }
        if operation.writes {
            access.left = values.number(operation.location, operation.left)?;
        }
        self.accesses.push(access)?;
        Ok(())
    }

    /// The number of locations up to the last one that has an operation. Those that have none have the highest numbers.
    fn locations_of_accesses(&self) -> u32 {
        let mut count: u32 = 0;
        for access in &self.accesses {
            count = count.max(access.location.number().wrapping_add(1));
        }
        count
    }

    /// Counts the times and the takers of this number of values.
    fn count_all(&mut self, alloc: Global, values: u32) -> Result<(), AllocError> {
        self.times = vec![in alloc; 0; values as usize]?;
        self.takers = vec![in alloc; 0; values as usize]?;
        for number in 0..size(self.accesses.as_slice()) {
            let access = at(self.accesses.as_slice(), number, NO_ACCESS);
            if access.changes() {
                add_one(&mut self.times, access.left);
                add_one(&mut self.takers, access.needed);
            }
        }
        for location in 0..size(self.initial.as_slice()) {
            let initial = at(self.initial.as_slice(), location, ValueId::NONE);
            add_one(&mut self.times, initial);
            let last = at(self.last.as_slice(), location, ValueId::NONE);
            add_one(&mut self.takers, last);
        }
        Ok(())
    }

    /// For each value how many plain writes can come over it, or none if some value has more takers than times, so that there is no schedule.
    pub(crate) fn spare(&self, alloc: Global) -> Result<Option<Vec<u32>>, AllocError> {
        let mut spare = Vec::new(alloc);
        for number in 0..size(self.times.as_slice()) {
            let times = at(self.times.as_slice(), number, 0);
            let takers = at(self.takers.as_slice(), number, 0);
            if takers > times {
                return Ok(None);
            }
            spare.push(times.wrapping_sub(takers))?;
        }
        Ok(Some(spare))
    }

    /// For each location what it holds before all operations.
    pub(crate) fn initial(&self) -> &[ValueId] {
        self.initial.as_slice()
    }

    /// Returns whether the location may hold this value in the end.
    pub(crate) fn may_end_with(&self, location: LocationId, held: ValueId) -> bool {
        let last = at(self.last.as_slice(), location.number(), ValueId::NONE);
        last == ValueId::NONE || last == held
    }

    /// The number of operations.
    pub(crate) fn count(&self) -> u32 {
        self.log.count()
    }

    pub(crate) fn processes(&self) -> u32 {
        self.log.processes()
    }

    /// The process's operation at this place.
    pub(crate) fn number(&self, process: ProcessId, place: ProcessPlace) -> OperationId {
        self.log.number(process, place)
    }

    /// The number of the process's operations from this place on.
    #[inline(always)]
    pub(crate) fn rest(&self, process: ProcessId, place: ProcessPlace) -> u32 {
        let end = self.log.end(process);
        end.number().saturating_sub(place.number())
    }

    /// The access at this place of the process. Behind the last place there is one that changes nothing and needs nothing.
    #[inline(always)]
    pub(crate) fn access(&self, process: ProcessId, place: ProcessPlace) -> Access {
        if self.rest(process, place) == 0 {
            return NO_ACCESS;
        }
        let number = self.log.number(process, place);
        at(self.accesses.as_slice(), number.number(), NO_ACCESS)
    }
}
