//! Cuts a text that has many traces into pieces, one for each.
#![tactic(auto)]

mod cutting;
mod header_line;
mod piece_cut;

pub use cutting::cut_piece;
pub use header_line::says_something;
pub use piece_cut::PieceCut;
