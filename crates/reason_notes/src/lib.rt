//! Notes on a certificate of reasons: its first lines in sentences, each with the orders of which one stands.
//!
//! A certificate is noted only if it is accepted, so what is noted is of a trace that has no legal schedule, and each line that is noted makes
//! the clause that it is noted with. What each sentence says is proved word by word.
#![tactic(auto)]

mod distinct_orders;
mod explaining;
mod first_lines;
mod line_orders;
mod line_words;
mod listed;
mod member_words;
mod noted_line;
mod noted_text;
mod operation_words;
mod order_words;
mod piece_words;
mod too_few_words;

pub use explaining::{explain_reasons, notes_of_reasons};
