//! Notes: lines with marks, and what is noted of a refusal and of a verdict.

mod note_lines;
mod refusals;
mod verdict_explanations;
