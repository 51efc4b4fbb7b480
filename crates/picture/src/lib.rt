//! Pictures of a trace: of operations that no order explains, or of a schedule.
//!
//! A picture is an SVG document of one file. Nothing that is claimed rests on it, so nothing is proved of it but that drawing it is safe
//! and comes to an end. What it says was looked up in the trace: a schedule was judged, and an arrow or a sentence is of `drawn_order`.
#![tactic(auto)]

mod arrows;
mod boxes;
mod drawing;
mod legend;
mod message;
mod operation_text;
mod placement;
mod reasons;
mod routes;
mod shown_names;
mod style;
mod subject;
mod svg_text;
mod verdict_picture;

pub use verdict_picture::draw_verdict;
