//! Traces of memory operations, schedules of them, and what a legal schedule is.
//!
//! Sequential consistency is Lamport's (1979), read and write operations are those of Gibbons and Korach
//! ("Testing Shared Memories", 1997).
#![tactic(auto)]

pub mod held_value;
pub mod judgement;
pub mod known_order;
pub mod laws;
pub mod limits;
pub mod name;
pub mod name_key;
pub mod name_table;
pub mod op_set;
pub mod operation;
pub mod place;
pub mod process_order;
pub mod schedule;
pub mod trace;
pub mod trace_size;
