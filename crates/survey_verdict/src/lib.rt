//! What is decided of a trace with the help of a survey. Nothing that the survey finds is taken on trust: a schedule is judged, and the
//! part of a core is refuted, and a certificate of reasons is checked, before anything is said.
#![tactic(auto)]

mod certifying;
mod core_names;
mod deciding;
mod extent;
mod hinted;
pub mod laws;
mod named_operations;
mod reporting;
mod surveyed;
mod word_set;

pub use certifying::write_survey_certificate;
pub use deciding::{decide_by_survey, decide_unwatched};
pub use hinted::decide_with_hint;
pub use reporting::{names_of_core, part_of_core, report_of_survey};
pub use surveyed::{ReasonCertificate, RefutedCore, Surveyed};
