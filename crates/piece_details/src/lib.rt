//! What is said of a trace beside its verdict, in memory: the lines of its report, the sentences of an explanation, and what shows that it has no
//! legal schedule.
#![tactic(auto)]

mod deciding;
mod details;
mod explained;
mod members;
mod shown_lines;
#[cfg(test)]
mod tests;

pub use deciding::PieceSearch;
pub use details::{PieceDetails, details_of};
pub use members::{push_kept, push_members};
pub use shown_lines::ShownLines;
