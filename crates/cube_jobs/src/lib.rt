//! Cubes as jobs: what a worker takes, and what it returns. Cube and conquer: Heule, Kullmann, Wieringa, Biere, "Cube and Conquer: Guiding
//! CDCL SAT Solvers by Lookaheads", 2011.
#![tactic(auto)]

mod gate;
mod job;
pub mod limits;
mod models;
pub mod options;
mod outcome;
mod search_fault;
mod search_run;

pub use gate::{Gate, OpenGate, Stage};
pub use job::{Job, Settled};
pub use limits::{MAX_CUBES, MAX_WORKERS};
pub use models::is_model_in;
pub use options::{BadOption, Options};
pub use outcome::Outcome;
pub use search_fault::{SearchCause, SearchFault};
pub use search_run::SearchRun;
