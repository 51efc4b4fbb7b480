//! The text of a schedule: its reader and its writer.
#![tactic(auto)]

pub mod schedule_fault;
pub mod schedule_laws;
pub mod schedule_reader;
pub mod schedule_writer;
