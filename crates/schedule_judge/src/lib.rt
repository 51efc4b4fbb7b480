//! The judge of a schedule: whether it is legal, which is sequential consistency (Lamport, 1979), and if not, what its first fault is
//! and where.
#![tactic(auto)]

mod come;
mod ending;
pub mod judge;
mod memory;
mod op_numbers;
mod survey;
