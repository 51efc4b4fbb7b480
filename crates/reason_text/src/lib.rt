//! The text of a certificate of reasons: its header, and its lines as operations and locations of a trace.
#![tactic(auto)]

mod line_words;
pub mod member_part;
pub mod operation_table;
pub mod reason_header;
pub mod reason_line;
pub mod source_piece;
