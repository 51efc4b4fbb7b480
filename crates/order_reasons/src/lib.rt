//! Reasons over orders: clauses of which each holds in each legal schedule of a trace.
#![tactic(auto)]

pub mod laws;
