//! The engine that decides long traces with the help of a survey, from bytes to bytes, over any source and sinks.
#![tactic(auto)]

mod core_sinks;
mod survey_engine;

pub use core_sinks::CoreSinks;
pub use survey_engine::{run_certified_survey, run_survey};
