//! The engine that decides many traces of one text, a line for each, in a plain form or as objects of JSON.
#![tactic(auto)]

mod batch_engine;
mod batch_run;
mod block;
mod deciding;
mod json_form;
mod json_lines;
mod line_form;
mod lines;
mod piece_verdict;
mod plain_lines;
mod progress;
mod reading_on;
mod side_by_side;
mod tally;

pub use batch_engine::{run_batch, run_batch_in};
pub use batch_run::{BatchRun, BatchSearch};
pub use block::{DecidedPiece, NumberedPiece, PlacedPiece};
pub use deciding::verdict_on;
pub use json_form::{JsonForm, NoMembers, PieceMembers};
pub use line_form::{LineForm, PlainForm};
pub use piece_verdict::PieceVerdict;
pub use tally::VerdictTally;
