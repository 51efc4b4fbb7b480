//! A state, and what can come next in it.

use crate::prices::Prices;
use crate::valued_log::{Access, ValueId, ValuedLog};
use numbered_log::{Fronts, LocationId, ProcessId, ProcessIds, ProcessPlace};
use std::alloc::{AllocError, Global};
use total_tables::{at, put, size};

/// What is placed of each process, what each location holds, and what follows from these two.
pub(crate) struct FrontState {
    /// The place of a process of which all is placed is the one behind its last.
    pub(crate) fronts: Fronts,
    /// For each location the value that it holds.
    pub(crate) held: Vec<ValueId>,
    /// For each value how many plain writes can still come over it: with one more an update or a final value would have no source of its own.
    pub(crate) spare: Vec<u32>,
    /// The number of operations that are placed.
    pub(crate) placed: u32,
    pub(crate) price: u32,
    /// A number mixed of the fronts and of what locations hold, by which states are known.
    pub(crate) mixed: u64,
}

/// Drops the tables in one call. A derived `Drop` would drop each at every exit of a function that owns a state, which makes its proof longer.
impl Drop for FrontState {
    fn drop(self) {
        let FrontState {
            fronts: _fronts,
            held: _held,
            spare: _spare,
            placed: _,
            price: _,
            mixed: _,
        } = self;
    }
}

/// Mixes two numbers, so that each bit of the result rests on all of theirs (the finalizer of Steele, Lea and Flood, "Fast splittable pseudorandom number
/// generators", 2014).
#[inline(always)]
fn mix(first: u32, second: u32) -> u64 {
    let mut mixed = ((u64::from(first) << 32) | u64::from(second)).wrapping_add(
        0x9e37_79b9_7f4a_7c15,
    );
    mixed = (mixed ^ (mixed >> 30)).wrapping_mul(0xbf58_476d_1ce4_e5b9);
    mixed = (mixed ^ (mixed >> 27)).wrapping_mul(0x94d0_49bb_1331_11eb);
    mixed ^ (mixed >> 31)
}

/// The part of a mixed number for a process with this front.
#[inline(always)]
fn mixed_front(process: ProcessId, front: ProcessPlace) -> u64 {
    mix(process.number(), front.number())
}

/// The part for a location that holds this value. Numbers of locations are inverted, and those of processes are small, so no process has such a part.
#[inline(always)]
fn mixed_held(location: LocationId, held: ValueId) -> u64 {
    mix(!location.number(), held.number())
}

/// Makes the entries those of the source, as many as both have.
#[inline(always)]
pub(crate) fn copy_entries<T: Copy>(source: &[T], entries: &mut [T]) {
    for place in 0..source.len().min(entries.len()) {
        entries[place] = source[place];
    }
}

impl FrontState {
    /// The state in which nothing is placed, with these spare times of values.
    pub(crate) fn new(
        alloc: Global,
        log: &ValuedLog<'_>,
        prices: Prices,
        spare: Vec<u32>,
    ) -> Result<FrontState, AllocError> {
        let mut price = prices.of_all(spare.as_slice());
        for process in ProcessId::first(log.processes()) {
            let rest = log.rest(process, ProcessPlace::FIRST);
            price = price.wrapping_add(prices.of_rest(rest));
        }
        Ok(FrontState {
            fronts: Fronts::new(alloc, log.processes())?,
            held: Vec::from_slice(alloc, log.initial())?,
            spare,
            placed: 0,
            price,
            // Not 0, which the slots of recent states have at first.
            mixed: 1,
        })
    }

    /// A copy.
    pub(crate) fn copied(&self, alloc: Global) -> Result<FrontState, AllocError> {
        Ok(FrontState {
            fronts: self.fronts.copied(alloc)?,
            held: Vec::from_slice(alloc, self.held.as_slice())?,
            spare: Vec::from_slice(alloc, self.spare.as_slice())?,
            placed: self.placed,
            price: self.price,
            mixed: self.mixed,
        })
    }

    /// Makes this state equal to another one, whose tables have as many entries.
    #[inline(always)]
    pub(crate) fn load(&mut self, other: &FrontState) {
        self.fronts.load(other.fronts.places());
        copy_entries(other.held.as_slice(), self.held.as_mut_slice());
        copy_entries(other.spare.as_slice(), self.spare.as_mut_slice());
        self.placed = other.placed;
        self.price = other.price;
        self.mixed = other.mixed;
    }

    /// The number of entries of all tables.
    pub(crate) fn entries(&self) -> u32 {
        size(self.fronts.places())
            .saturating_add(size(self.held.as_slice()))
            .saturating_add(size(self.spare.as_slice()))
    }

    /// All processes, by rising numbers.
    #[inline(always)]
    pub(crate) fn process_ids(&self) -> ProcessIds {
        ProcessId::first(size(self.fronts.places()))
    }

    /// The value that the location holds.
    #[inline(always)]
    pub(crate) fn held(&self, location: LocationId) -> ValueId {
        at(self.held.as_slice(), location.number(), ValueId::NONE)
    }

    /// Returns whether the access finds what it needs.
    #[inline(always)]
    pub(crate) fn fits(&self, access: Access) -> bool {
        access.needs_nothing() || access.needed == self.held(access.location)
    }

    /// Moves the process's front on by one.
    #[inline(always)]
    fn pass(&mut self, log: &ValuedLog<'_>, prices: Prices, process: ProcessId) {
        let front = self.fronts.of(process);
        let rest = log.rest(process, front);
        let cheaper = prices
            .of_rest(rest)
            .wrapping_sub(prices.of_rest(rest.wrapping_sub(1)));
        self.price = self.price.wrapping_sub(cheaper);
        self.mixed ^= mixed_front(process, front) ^ mixed_front(process, front.next());
        self.fronts.set(process, front.next());
        self.placed = self.placed.wrapping_add(1);
    }

    /// Takes one of the times at which a plain write can come over this value. Returns whether there was one. A value that is not known has no taker.
    #[inline(always)]
    fn write_over(&mut self, prices: Prices, held: ValueId) -> bool {
        if held == ValueId::NONE {
            return true;
        }
        let spare = at(self.spare.as_slice(), held.number(), 0);
        if spare == 0 {
            return false;
        }
        let left = spare.wrapping_sub(1);
        put(self.spare.as_mut_slice(), held.number(), left);
        self.price = self
            .price
            .wrapping_sub(prices.of_spare(spare))
            .wrapping_add(prices.of_spare(left));
        true
    }

    /// Places the process's next operation, which changes its location and fits. Returns whether a schedule may come of it: none does if some update or final
    /// value is then left without a source, and then the state is not to be used.
    #[inline(always)]
    pub(crate) fn place_writer(
        &mut self,
        log: &ValuedLog<'_>,
        prices: Prices,
        process: ProcessId,
        access: Access,
    ) -> bool {
        let location = access.location;
        let held = self.held(location);
        if access.needs_nothing() && !self.write_over(prices, held) {
            return false;
        }
        self.mixed ^= mixed_held(location, held) ^ mixed_held(location, access.left);
        put(self.held.as_mut_slice(), location.number(), access.left);
        self.pass(log, prices, process);
        true
    }

    /// Places what fits and changes nothing. To place that at once is right in any case, since it is the same to all other operations.
    #[inline(always)]
    pub(crate) fn settle(&mut self, log: &ValuedLog<'_>, prices: Prices) {
        for process in self.process_ids() {
            for _ in 0..log.count() {
                let access = log.access(process, self.fronts.of(process));
                // Behind the last operation there is an access that needs nothing either.
                if access.needs_nothing() || access.changes() || !self.fits(access) {
                    break;
                }
                self.pass(log, prices, process);
            }
        }
    }

    /// Returns whether all operations are placed, and each location holds what it may in the end.
    pub(crate) fn is_end(&self, log: &ValuedLog<'_>) -> bool {
        if self.placed < log.count() {
            return false;
        }
        for location in LocationId::first(size(self.held.as_slice())) {
            if !log.may_end_with(location, self.held(location)) {
                return false;
            }
        }
        true
    }
}
