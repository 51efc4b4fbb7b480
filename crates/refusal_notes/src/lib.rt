//! Notes on why a file was refused: the line as it stands, what was expected, and what was probably meant.
//!
//! Nothing that is claimed rests on them.
#![tactic(auto)]

mod all_refusals;
mod certificate_notes;
mod earlier_lines;
mod failed_hint;
mod leaf_notes;
mod meanings;
mod name_notes;
mod names;
mod proof_notes;
mod refusals;
mod swapped;
mod text_kinds;
mod trace_meanings;
mod trace_notes;
mod unknown_line;
mod word_notes;

pub use all_refusals::refusal_list;
pub use refusals::explain_refusal;
