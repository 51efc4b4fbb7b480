//! Numbers of what a log has, each kind with a type of its own.

ghost use Rattle.std.specs.Iterator.{at_most};
ghost use Rattle.std.specs.Prelude.{◌-◌};

use std::ops::Range;

/// The number of an operation in its log, from 0: the operations of one process after those of another, each in program order. As readers the final
/// values of locations have such numbers too, behind those of all operations.
#[derive(Clone, Copy, PartialEq, Eq, PartialOrd, Ord)]
pub struct OperationId {
    number: u32,
}

/// No operation, and an initial value where a source is named.
pub const NOBODY: OperationId = OperationId { number: u32::MAX };

/// Another number of no operation, for a source that is not known.
pub const UNKNOWN_SOURCE: OperationId = OperationId {
    number: u32::MAX - 1,
};

/// No number of what has no type of its own, as a run, a position or a pair.
pub const NO_NUMBER: u32 = u32::MAX;

/// The number of a process in its log, from 0.
#[derive(Clone, Copy, PartialEq, Eq, PartialOrd, Ord)]
pub struct ProcessId {
    number: u32,
}

/// The number of a location in its log, from 0.
#[derive(Clone, Copy, PartialEq, Eq)]
pub struct LocationId {
    number: u32,
}

/// The place of an operation in its process, counted from 1.
#[derive(Clone, Copy, PartialEq, Eq, PartialOrd, Ord)]
pub struct ProcessPlace {
    number: u32,
}

/// Numbers of operations, rising.
#[derive(Drop)]
pub struct OperationIds {
    numbers: Range<u32>,
}

/// Numbers of processes, rising.
#[derive(Drop)]
pub struct ProcessIds {
    numbers: Range<u32>,
}

/// Numbers of locations, rising.
#[derive(Drop)]
pub struct LocationIds {
    numbers: Range<u32>,
}

/// Places of a process, rising.
#[derive(Drop)]
pub struct ProcessPlaces {
    numbers: Range<u32>,
}

/// Places of a process, falling down to the first.
#[derive(Drop)]
pub struct PlacesBack {
    left: u32,
}

impl OperationId {
    /// The first operation.
    pub const FIRST: OperationId = OperationId { number: 0 };

    #[inline(always)]
    pub fn new(number: u32) -> OperationId {
        OperationId { number }
    }

    #[inline(always)]
    pub fn number(self) -> u32 {
        self.number
    }

    /// The operation behind this one.
    #[inline(always)]
    pub fn next(self) -> OperationId {
        OperationId::new(self.number.wrapping_add(1))
    }

    /// The operation before this one; it is of the same process unless this one is the first there. That of `FIRST` is `NOBODY`.
    #[inline(always)]
    pub fn previous(self) -> OperationId {
        OperationId::new(self.number.wrapping_sub(1))
    }

    /// The operation that this number of places lies behind this one.
    #[inline(always)]
    pub fn ahead(self, places: u32) -> OperationId {
        OperationId::new(self.number.wrapping_add(places))
    }

    /// The operation that this number of places lies before this one.
    #[inline(always)]
    pub fn back(self, places: u32) -> OperationId {
        OperationId::new(self.number.wrapping_sub(places))
    }

    /// The operation at this place of the process of which this one is the first.
    #[inline(always)]
    pub fn at_place(self, place: ProcessPlace) -> OperationId {
        OperationId::new(self.number.wrapping_add(place.number).wrapping_sub(1))
    }

    /// The operations from this one on, up to the one before the end.
    #[inline(always)]
    pub fn up_to(self, end: OperationId) -> OperationIds {
        OperationIds {
            numbers: self.number..end.number,
        }
    }

    /// The first operations, as many as are counted.
    #[inline(always)]
    pub fn first(count: u32) -> OperationIds {
        OperationIds { numbers: 0..count }
    }
}

impl ProcessId {
    /// The first process.
    pub const FIRST: ProcessId = ProcessId { number: 0 };

    /// The process in place of one that is not there.
    pub const NONE: ProcessId = ProcessId { number: u32::MAX };

    #[inline(always)]
    pub fn new(number: u32) -> ProcessId {
        ProcessId { number }
    }

    #[inline(always)]
    pub fn number(self) -> u32 {
        self.number
    }

    /// The process behind this one.
    #[inline(always)]
    pub fn next(self) -> ProcessId {
        ProcessId::new(self.number.wrapping_add(1))
    }

    /// The first processes, as many as are counted.
    #[inline(always)]
    pub fn first(count: u32) -> ProcessIds {
        ProcessIds { numbers: 0..count }
    }
}

impl LocationId {
    /// The first location.
    pub const FIRST: LocationId = LocationId { number: 0 };

    /// The location in place of one that is not there.
    pub const NONE: LocationId = LocationId { number: u32::MAX };

    #[inline(always)]
    pub fn new(number: u32) -> LocationId {
        LocationId { number }
    }

    #[inline(always)]
    pub fn number(self) -> u32 {
        self.number
    }

    /// The location behind this one.
    #[inline(always)]
    pub fn next(self) -> LocationId {
        LocationId::new(self.number.wrapping_add(1))
    }

    /// The first locations, as many as are counted.
    #[inline(always)]
    pub fn first(count: u32) -> LocationIds {
        LocationIds { numbers: 0..count }
    }
}

impl ProcessPlace {
    /// The place before all others.
    pub const START: ProcessPlace = ProcessPlace { number: 0 };

    /// The first place.
    pub const FIRST: ProcessPlace = ProcessPlace { number: 1 };

    /// A place behind all others.
    pub const FAR: ProcessPlace = ProcessPlace { number: u32::MAX };

    #[inline(always)]
    pub fn new(number: u32) -> ProcessPlace {
        ProcessPlace { number }
    }

    #[inline(always)]
    pub fn number(self) -> u32 {
        self.number
    }

    /// The place behind this one.
    #[inline(always)]
    pub fn next(self) -> ProcessPlace {
        ProcessPlace::new(self.number.wrapping_add(1))
    }

    /// The place before this one. That of `START` is `FAR`.
    #[inline(always)]
    pub fn previous(self) -> ProcessPlace {
        ProcessPlace::new(self.number.wrapping_sub(1))
    }

    /// The place that this number of places lies behind this one, or `FAR`.
    #[inline(always)]
    pub fn ahead(self, places: u32) -> ProcessPlace {
        ProcessPlace::new(self.number.saturating_add(places))
    }

    /// The earlier of the two places.
    #[inline(always)]
    pub fn earlier(self, other: ProcessPlace) -> ProcessPlace {
        ProcessPlace::new(self.number.min(other.number))
    }

    /// The later of the two places.
    #[inline(always)]
    pub fn later(self, other: ProcessPlace) -> ProcessPlace {
        ProcessPlace::new(self.number.max(other.number))
    }

    /// The places from this one back to the first.
    #[inline(always)]
    pub fn down_to_first(self) -> PlacesBack {
        PlacesBack { left: self.number }
    }

    /// The places from this one on, up to the one before the end.
    #[inline(always)]
    pub fn up_to(self, end: ProcessPlace) -> ProcessPlaces {
        ProcessPlaces {
            numbers: self.number..end.number,
        }
    }
}

impl Iterator for OperationIds {
    type Item = OperationId;

    ghost remaining = { λ s. at_most (s.numbers.end - s.numbers.start) };

    #[inline(always)]
    fn next(&mut self) -> Option<OperationId> {
        self.numbers.next().map(OperationId::new)
    }
}

impl Iterator for ProcessIds {
    type Item = ProcessId;

    ghost remaining = { λ s. at_most (s.numbers.end - s.numbers.start) };

    #[inline(always)]
    fn next(&mut self) -> Option<ProcessId> {
        self.numbers.next().map(ProcessId::new)
    }
}

impl Iterator for LocationIds {
    type Item = LocationId;

    ghost remaining = { λ s. at_most (s.numbers.end - s.numbers.start) };

    #[inline(always)]
    fn next(&mut self) -> Option<LocationId> {
        self.numbers.next().map(LocationId::new)
    }
}

impl Iterator for PlacesBack {
    type Item = ProcessPlace;

    ghost remaining = { λ s. at_most s.left };

    #[inline(always)]
    fn next(&mut self) -> Option<ProcessPlace> {
        if self.left == 0 {
            return None;
        }
        let number = self.left;
        self.left -= 1;
        Some(ProcessPlace { number })
    }
}

impl Iterator for ProcessPlaces {
    type Item = ProcessPlace;

    ghost remaining = { λ s. at_most (s.numbers.end - s.numbers.start) };

    #[inline(always)]
    fn next(&mut self) -> Option<ProcessPlace> {
        self.numbers.next().map(ProcessPlace::new)
    }
}
