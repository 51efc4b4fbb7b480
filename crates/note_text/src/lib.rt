//! Notes on an answer: lines for standard error, numbers and words in them, and lines of texts with a mark.
//!
//! Nothing that is claimed rests on them.
#![tactic(auto)]

mod decimal_digits;
mod growing_text;
mod line_words;
mod named_text;
mod notes;
mod shown;

pub use decimal_digits::{Digits, decimal};
pub use growing_text::GrowingText;
pub use line_words::{count_words, word_at, word_start};
pub use named_text::{AskedTexts, NamedText, line_of_text};
pub use notes::Notes;
pub use shown::add_quoted;
