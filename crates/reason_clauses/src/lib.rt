//! Makers of clauses over orders: each makes of a trace and a line of a certificate a clause that holds in each legal schedule.
#![tactic(auto)]

pub mod barring;
pub mod cause;
pub mod cycle;
pub mod ended;
pub mod held_at;
pub mod last;
pub mod lookups;
pub mod orders;
pub mod own;
pub mod pair;
pub mod pieces;
pub mod reader;
pub mod source;
pub mod stretches;
pub mod writer_tables;
