//! Locations and values that were probably meant in place of others.

use crate::held_value::initial_value;
use crate::slips::{differ_by_case, differ_by_digit, differ_by_letter};
use note_text::decimal;
use trace_semantics::operation::Op;
use trace_semantics::trace::Trace;

/// How a name may be near another one.
#[derive(Clone, Copy)]
enum Nearness {
    ByCase,
    ByLetter,
}

impl Nearness {
    /// Returns whether the names are near each other.
    fn holds(self, first: &[u8], second: &[u8]) -> bool {
        match self {
            Nearness::ByCase => differ_by_case(first, second),
            Nearness::ByLetter => differ_by_letter(first, second),
        }
    }
}

/// What was found of some kind, names or values: none, one, or more than one.
#[derive(Clone, Copy)]
enum Found<T> {
    Nothing,
    One(T),
    Several,
}

impl<T: Copy + PartialEq> Found<T> {
    /// The same with one more.
    fn and(self, next: T) -> Found<T> {
        match self {
            Found::Nothing => Found::One(next),
            Found::One(found) => found_of_two(found, next),
            Found::Several => Found::Several,
        }
    }
}

/// Gives the one that both are, or several if they differ.
fn found_of_two<T: Copy + PartialEq>(first: T, second: T) -> Found<T> {
    if first == second {
        Found::One(first)
    } else {
        Found::Several
    }
}

/// A location for which another one may be meant: one that gets this value, if there is one, or else any value.
#[derive(Clone, Copy)]
struct WantedLocation<'w> {
    location: &'w [u8],
    value: Option<u64>,
}

impl<'w> WantedLocation<'w> {
    /// Returns whether a location of this name that gets this value may be meant.
    fn is_met(self, name: &[u8], value: u64, nearness: Nearness) -> bool {
        let is_of_value = match self.value {
            Some(wanted) => wanted == value,
            None => true,
        };
        is_of_value && nearness.holds(self.location, name)
    }
}

/// Adds the locations that these operations write and that may be meant.
fn names_written<'t>(
    before: Found<&'t [u8]>,
    ops: &'t [Op],
    wanted: WantedLocation<'_>,
    nearness: Nearness,
) -> Found<&'t [u8]> {
    let mut found = before;
    for op in ops {
        let name = op.location().as_bytes();
        if let Some(value) = op.written_value() {
            if wanted.is_met(name, value, nearness) {
                found = found.and(name);
            }
        }
    }
    found
}

/// The locations that may be meant. A location is not near itself, so it is never among them.
fn names_near<'t>(
    trace: &'t Trace,
    wanted: WantedLocation<'_>,
    nearness: Nearness,
) -> Found<&'t [u8]> {
    let mut found = Found::Nothing;
    for entry in trace.initial() {
        let name = entry.0.as_bytes();
        if wanted.is_met(name, entry.1, nearness) {
            found = found.and(name);
        }
    }
    for process in trace.processes() {
        found = names_written(found, process.operations.as_slice(), wanted, nearness);
    }
    found
}

/// The one location that may be meant; one that differs by case goes before one that differs by a letter.
fn one_near<'t>(trace: &'t Trace, wanted: WantedLocation<'_>) -> Option<&'t [u8]> {
    match names_near(trace, wanted, Nearness::ByCase) {
        Found::One(name) => Some(name),
        Found::Several => None,
        Found::Nothing => match names_near(trace, wanted, Nearness::ByLetter) {
            Found::One(name) => Some(name),
            _ => None,
        },
    }
}

/// The location that is probably meant in place of this one, which gets no value.
pub fn near_location<'t>(trace: &'t Trace, location: &[u8]) -> Option<&'t [u8]> {
    one_near(
        trace,
        WantedLocation {
            location,
            value: None,
        },
    )
}

/// The location that is probably meant in place of this one, since it gets the value.
pub fn near_location_of<'t>(trace: &'t Trace, location: &[u8], value: u64) -> Option<&'t [u8]> {
    one_near(
        trace,
        WantedLocation {
            location,
            value: Some(value),
        },
    )
}

/// Returns whether one number is a slip of the other one.
fn is_near_value(first: u64, second: u64) -> bool {
    differ_by_digit(decimal(first).as_slice(), decimal(second).as_slice())
}

/// Adds the values near this one that these operations write to the location.
fn values_written(before: Found<u64>, ops: &[Op], location: &[u8], value: u64) -> Found<u64> {
    let mut found = before;
    for op in ops {
        if op.location().as_bytes() == location {
            if let Some(written) = op.written_value() {
                if is_near_value(value, written) {
                    found = found.and(written);
                }
            }
        }
    }
    found
}

/// The one value that the location gets and that is probably meant in place of this one.
pub fn near_value(trace: &Trace, location: &[u8], value: u64) -> Option<u64> {
    let mut found = Found::Nothing;
    if let Some(initial) = initial_value(trace, location) {
        if is_near_value(value, initial) {
            found = found.and(initial);
        }
    }
    for process in trace.processes() {
        found = values_written(found, process.operations.as_slice(), location, value);
    }
    match found {
        Found::One(near) => Some(near),
        _ => None,
    }
}
