//! Rows of places: what is known of each operation of a trace.

ghost use Rattle.std.specs.Prelude.{◌≡◌, ◌||◌};

use crate::numbered::OperationNumber;
use std::alloc::{AllocError, Global};
use std::marker::Model;
use trace_semantics::limits::MAX_PROCESSES;

/// Returns whether one of the two holds. Both are computed before the call, so a pass over steps leaves none out once a row has risen.
/// It is a call, and not `||` in place, so that the proof of a pass has one equation for its answer.
pub fn either(first: bool, second: bool) -> bool
    ensures { result ≡ (first || second) }
{
    first || second
}

/// What is known of one operation: for each process the last place there that stands before it, or 0.
#[derive(Drop)]
pub struct OperationRow {
    /// One place for each of 64 processes, by the number of the process from 0, also if the trace has fewer. Places count from 1.
    places: Vec<u32>,
}

impl Model for OperationRow {
    ghost use Rattle.std.specs.Prelude.{List, ℕ};

    ghost Value = { List ℕ };

    ghost view = { λ row. row.places.items };
}

impl OperationRow {
    ghost use Rattle.std.specs.Prelude.{◌≡◌, ◌≤◌, ◌<◌, ℕ, true, false, length, IfOk, slice_index_or};
    ghost use Rattle.forced_order.specs.Raised.{IsRowRaised};
    ghost use Rattle.forced_order.specs.Room.{row_room};

    /// Returns a row of zeros, one for each process that a trace may have.
    fn zeros(alloc: Global) -> Result<OperationRow, AllocError>
        ensures zero { IfOk result (λ row. (q : ℕ) → slice_index_or row q 0 ≡ 0) }
        ensures wide { IfOk result (λ row. length row ≡ 64) }
    {
        let mut places = Vec::with_capacity(alloc, MAX_PROCESSES)?;
        for process in 0..MAX_PROCESSES {
            places.push(0)?;
        }
        Ok(OperationRow { places })
    }

    /// Returns the last place of the process, or 0.
    fn last(&self, process: u16) -> u32
        ensures { result ≡ slice_index_or self.now process 0 }
    {
        let k = process as usize;
        if k < self.places.len() {
            self.places[k]
        } else {
            0
        }
    }

    /// Raises the place of the process to this one, and returns whether it was lower. A place that is no higher changes nothing, nor does a process
    /// for which the row has no place.
    fn raise(&mut self, process: u16, place: u32) -> bool
        ensures raised { IsRowRaised self.old self.new process place }
        ensures less { result ≡ true → row_room self.new < row_room self.old }
        ensures same { result ≡ false → self.new ≡ self.old }
        ensures wide { length self.new ≡ length self.old }
        ensures high { result ≡ false → process < length self.old → place ≤ slice_index_or self.old process 0 }
    {
        let k = process as usize;
        if k < self.places.len() && self.places[k] < place {
            self.places[k] = place;
            true
        } else {
            false
        }
    }
}

/// The rows of one process by place.
#[derive(Drop)]
pub struct ProcessRows {
    /// Row k is that of the operation at place k. The first row is of no operation, since places count from 1.
    rows: Vec<OperationRow>,
}

impl Model for ProcessRows {
    ghost use Rattle.std.specs.Prelude.{List, ℕ};

    ghost Value = { List (List ℕ) };

    ghost view = { λ rows. rows.rows.items };
}

impl ProcessRows {
    ghost use Rattle.std.specs.Prelude.{◌≡◌, ◌≤◌, ◌<◌, ℕ, true, false, [], length, IfOk, slice_index_or};
    ghost use Rattle.forced_order.specs.Raised.{AreRowsRaised};
    ghost use Rattle.forced_order.specs.Room.{process_room};

    /// Returns rows of zeros.
    fn zeros(alloc: Global, count: usize) -> Result<ProcessRows, AllocError>
        ensures zero { IfOk result (λ rows. (k q : ℕ) → slice_index_or (slice_index_or rows k []) q 0 ≡ 0) }
        ensures wide { IfOk result (λ rows. (k : ℕ) → k < count → length (slice_index_or rows k []) ≡ 64) }
    {
        let mut rows = Vec::with_capacity(alloc, count)?;
        for place in 0..count {
            rows.push(OperationRow::zeros(alloc)?)?;
        }
        Ok(ProcessRows { rows })
    }

    /// Returns the last place of the process before the operation at this place, or 0.
    fn last(&self, at: u32, process: u16) -> u32
        ensures { result ≡ slice_index_or (slice_index_or self.now at []) process 0 }
    {
        let k = at as usize;
        if k < self.rows.len() {
            self.rows[k].last(process)
        } else {
            0
        }
    }

    /// Raises the place of the process in the row of the operation at this place.
    fn raise(&mut self, at: u32, process: u16, place: u32) -> bool
        ensures raised { AreRowsRaised self.old self.new at process place }
        ensures less { result ≡ true → process_room self.new < process_room self.old }
        ensures same { result ≡ false → self.new ≡ self.old }
        ensures wide { (k : ℕ) → length (slice_index_or self.new k []) ≡ length (slice_index_or self.old k []) }
        ensures high { result ≡ false → process < length (slice_index_or self.old at []) → place ≤ slice_index_or (slice_index_or self.old at []) process 0 }
    {
        let k = at as usize;
        if k < self.rows.len() {
            self.rows[k].raise(process, place)
        } else {
            false
        }
    }
}

/// The rows of all processes of a trace.
#[derive(Drop)]
pub struct OrderRows {
    /// By the number of the process, from 0.
    processes: Vec<ProcessRows>,
}

impl Model for OrderRows {
    ghost use Rattle.forced_order.specs.Rows.{OrderValue};

    ghost Value = { OrderValue };

    ghost view = { λ rows. rows.processes.items };
}

impl OrderRows {
    ghost use Rattle.std.specs.Prelude.{◌≡◌, ◌≤◌, ◌<◌, ℕ, Some, false, IfOk};
    ghost use Rattle.std.specs.List.{slice_get};
    ghost use Rattle.trace_semantics.specs.Trace.{TraceValue};
    ghost use Rattle.forced_order.specs.Closed.{IsClosedStep};
    ghost use Rattle.forced_order.specs.Forced.{IsForcedByNumber, AreForced};
    ghost use Rattle.forced_order.specs.Raised.{IsRaised, IsRise};
    ghost use Rattle.forced_order.specs.Rows.{HasRow, last_before};
    ghost use Rattle.forced_order.specs.declared.numbered.OperationNumber.{OperationNumber as Named};

    /// Returns rows of zeros: for each process the number that is given. That is one more than its operations, since the first row is of none.
    pub fn zeros(alloc: Global, counts: &[usize]) -> Result<OrderRows, AllocError>
        ensures zero { IfOk result (λ rows. (n : Named) (q : ℕ) → last_before rows n q ≡ 0) }
        ensures rows { IfOk result (λ rows. (j k count : ℕ) → slice_get counts.now j ≡ Some count → k < count → HasRow rows (record { process = j; place = k })) }
    {
        let mut processes = Vec::with_capacity(alloc, counts.len())?;
        for k in 0..counts.len() {
            processes.push(ProcessRows::zeros(alloc, counts[k])?)?;
        }
        Ok(OrderRows { processes })
    }

    /// Returns the last place of the process that stands before the operation; 0 if none does.
    pub fn last_before(&self, n: OperationNumber, process: u16) -> u32
        ensures { result ≡ last_before self.now n process }
    {
        let k = n.process as usize;
        if k < self.processes.len() {
            self.processes[k].last(n.place, process)
        } else {
            0
        }
    }

    /// Raises the place of the process in the row of the operation, and returns whether it was lower.
    fn raise(&mut self, n: OperationNumber, process: u16, place: u32) -> bool
        ensures raised { IsRaised self.old self.new n process place }
        ensures rise { IsRise result self.old self.new }
        ensures high { result ≡ false → HasRow self.old n → process < 64 → place ≤ last_before self.old n process }
    {
        let k = n.process as usize;
        if k < self.processes.len() {
            self.processes[k].raise(n.place, process, place)
        } else {
            false
        }
    }

    /// Raises the row of the second operation to what follows if the first stands before it, and returns whether it was lower. The row of the first
    /// says what stands before it and not the first itself, so that one's place is raised apart. 64 is the length of each row.
    pub fn raise_from(&mut self, first: OperationNumber, second: OperationNumber) -> bool
        ensures forced { (t : TraceValue) → IsForcedByNumber t first second → AreForced t self.old → AreForced t self.new }
        ensures rise { IsRise result self.old self.new }
        ensures closed { result ≡ false → HasRow self.old second → first.process < 64 → IsClosedStep self.new first second }
    {
        let mut rose = self.raise(second, first.process, first.place);
        for process in 0..64 {
            let place = self.last_before(first, process);
            let more = self.raise(second, process, place);
            rose = either(rose, more);
        }
        rose
    }
}
