//! Notes on verdicts: why a schedule is illegal, why a trace is inconsistent, and what to try if it is not decided.
//!
//! Nothing that is claimed rests on them. An open cube is noted as orders that its literals say by the layout; nothing else is proved
//! of them but that they are safe and come to an end.
#![tactic(auto)]

mod certificate_length;
mod contradiction;
mod core_part;
mod counted;
mod held_value;
mod illegal;
mod illegal_whole;
mod initial_words;
mod kept_operations;
mod named_operations;
mod nearest;
mod open_cubes;
mod open_orders;
mod operation_words;
mod read_slips;
mod sentence;
mod shown_places;
mod slips;
mod sourceless;
mod sourceless_finals;
mod sourceless_reads;
mod undecided;

pub use certificate_length::explain_certificate_length;
pub use contradiction::{explain_by_survey, explain_refuted};
pub use core_part::CorePart;
pub use counted::explain_counted;
pub use illegal::explain_illegal;
pub use kept_operations::{KeptOp, kept_ops};
pub use named_operations::origin_of;
pub use sentence::Sentence;
pub use shown_places::ShownPlaces;
pub use sourceless::explain_sourceless;
pub use undecided::{SearchEffort, explain_undecided};
