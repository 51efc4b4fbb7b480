//! The order that program order, the before pairs of a trace and its times force on its operations.
#![tactic(auto)]

mod closing;
pub mod forced_order;
pub mod laws;
mod least_ends;
pub mod numbered;
mod pairs;
mod raising;
pub mod rows;
pub mod times;
mod walk;
