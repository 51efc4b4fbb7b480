//! The command line of `vsc`: what its words ask for, as `clap` defines it.
#![tactic(auto)]

mod arguments;
mod batch_command;
mod building;
mod cnf_command;
mod explains;
mod line;
mod line_fault;
mod number_option;
mod numbers;
mod part_command;
mod path_commands;
mod program;
mod recheck_command;
mod refusals_command;
mod survey_command;
mod verify_command;

pub use explains::Explains;
pub use line::{
    BatchNumbers, BatchOutput, CommandLine, Line, SearchNumbers, SurveyFiles, SurveyNumbers,
    read_line,
};
pub use line_fault::LineFault;
