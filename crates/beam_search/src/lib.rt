//! Beam search for a schedule: many states side by side, in all of which as many writers are placed, and of all that can follow them the best.
//!
//! Nothing here is believed. So nothing is proved of it but that it is safe and comes to an end, and a look past the end of a table
//! reads a fixed value.
#![tactic(auto)]

mod beam;
mod beam_search;
mod best_successors;
mod classed_log;
mod dead_ends;
mod evenness;
mod front_cells;
mod layer;
mod next_writers;
mod seen_states;
mod state;
mod ways;
mod worth;

pub use beam::Beam;
pub use beam_search::{BeamEnding, BeamSearch};
