//! Runs a command line over any host and any two standard streams.
#![tactic(auto)]

mod arguments;
mod asked_file;
mod asked_gate;
mod asked_text;
mod batch_runs;
mod beside;
mod clash;
mod command;
mod engine_runs;
mod explaining;
mod formed_runs;
mod hinted_runs;
mod inputs;
mod kept_run;
mod opening;
mod picturing;
mod program_run;
mod refusals;
mod search_runs;
mod survey_runs;
mod telling;
mod text_engines;

pub use arguments::{ArgumentFault, refuse, words_of};
pub use clash::Clash;
pub use command::run;
pub use inputs::{InputPaths, SurveyInputs};
pub use program_run::ProgramRun;
