//! Walks that place the operations of a log one after the other, and decide orders: only where they are stuck, or before each writer is placed.
//! From conflicts they learn clauses.
//!
//! Nothing here is believed. So nothing is proved of it but that it is safe and comes to an end, and a look past the end of a table
//! reads a fixed value.
#![tactic(auto)]

mod choice;
mod closed_set;
mod deciding;
mod memory;
mod placing_walk;
mod spare_values;
mod waiting;
mod waiting_ring;

pub use placing_walk::{Deciding, PlacingWalk, WalkEnding};
pub use spare_values::has_many_updates;
