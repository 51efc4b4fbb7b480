//! The reducer of traces: repeated local reads are dropped, and put back into a schedule.
//!
//! A process that reads again what its last operation left or, as a plain read, found at the same location learns nothing
//! from it. Without these reads the trace has a legal schedule if and only if it has one with them, since each can stand
//! directly after the operation that it repeats.
#![tactic(auto)]

pub mod expand;
mod kept;
mod kept_places;
pub mod laws;
mod named;
pub mod reduce_fault;
pub mod reduced;

pub use kept_places::is_repeat;
