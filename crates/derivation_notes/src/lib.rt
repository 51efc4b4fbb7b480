//! Notes on the derivation of a contradiction: each clause that its unit propagation uses is a sentence on operations of the trace.
//!
//! A derivation is noted only if the checker accepts it, so what is noted is of a trace that has no legal schedule. Nothing is proved of the
//! words. It is followed hint by hint, by unit propagation alone.
#![tactic(auto)]

mod chains;
mod explaining;
mod facts;
mod final_sentences;
mod literal_order;
mod literal_words;
mod needed_steps;
mod read_sentences;
mod rests;
mod standing_sentences;
mod story;
mod telling;

pub use explaining::{Deriver, Telling, explain_derivation};
