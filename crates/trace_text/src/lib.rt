//! The text of a trace, versions 1 to 3: its reader and its writer.
#![tactic(auto)]

mod entry;
mod header;
mod line;
mod location_count;
mod pair_order;
mod place;
mod references;
mod seen;
mod statement;
mod trace_builder;
pub mod trace_fault;
pub mod trace_laws;
pub mod trace_reader;
pub mod trace_writer;
pub mod version;

pub use trace_semantics::operation::{Op, OpName};
pub use trace_semantics::schedule::Schedule;
pub use trace_semantics::trace::Trace;
