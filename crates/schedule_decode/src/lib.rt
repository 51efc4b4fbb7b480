//! A model of a trace's formula becomes a schedule: the order in which it puts the operations.
#![tactic(auto)]

pub mod decode;
pub mod decode_fault;
pub mod decode_model;
mod operation_names;
mod operation_order;
