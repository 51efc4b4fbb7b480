//! A look over a whole trace: a schedule, or a few operations by which it has none, or a certificate of reasons that it has none.
//!
//! Nothing here is believed: the caller judges the schedule, makes the part of the core and refutes it, or checks the certificate. So nothing is proved of it but
//! that it is safe and comes to an end, and a look past the end of a table reads a fixed value.
#![tactic(auto)]

mod another;
mod contradiction;
mod counting_first;
mod engine_reasons;
mod finding;
mod given_order;
mod local_reads;
mod log_part;
mod purse;
mod shrinking;

pub use finding::BySaturation;
