//! Explains an answer of `vsc`: notes on a refusal, or on a verdict.
//!
//! Nothing that is claimed rests on it, so nothing is proved of it but that it is safe and comes to an end.
#![tactic(auto)]

mod asked_command;
mod by_solver;
mod explaining;
mod inputs;
mod verdicts;

pub use asked_command::AskedCommand;
pub use explaining::explain;
pub use verdict_notes::SearchEffort;
