//! The board: a dealer puts jobs, workers take them and give results, and a collector gathers these. All of them share it, and each may be
//! in a thread of its own.
#![tactic(auto)]

mod account;
mod board;
mod channel_rules;
mod channel_view;
mod closing;
mod counts;
mod ended;
mod in_flight;
pub mod laws;
mod moves;
mod opening;
mod seats;

pub use account::Account;
pub use board::Board;
pub use cube_jobs::{MAX_CUBES, MAX_WORKERS};
pub use ended::Ended;
pub use in_flight::{HeldJob, InFlight};
pub use seats::{CollectorSeat, DealerSeat, WorkerSeat};
