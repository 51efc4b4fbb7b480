//! The files that are kept of a trace in a folder of the host.
#![tactic(auto)]

mod keeping;
mod names;

pub use keeping::{KeptTexts, keep_texts};
pub use names::stem_of;
