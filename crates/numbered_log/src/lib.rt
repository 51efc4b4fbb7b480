//! Traces as numbers, and budgets of steps.
//!
//! Nothing here is believed. So nothing is proved of it but that it is safe and comes to an end, and a look past the end of a table
//! reads a fixed value.
#![tactic(auto)]

mod budget;
mod fronts;
mod numbered_log;
mod numbers;

pub use budget::Budget;
pub use fronts::Fronts;
pub use numbered_log::{NumberedLog, NumberedOrigin, NumberedPair, Operation};
pub use numbers::{
    LocationId, LocationIds, NO_NUMBER, NOBODY, OperationId, OperationIds, PlacesBack, ProcessId,
    ProcessIds, ProcessPlace, ProcessPlaces, UNKNOWN_SOURCE,
};
