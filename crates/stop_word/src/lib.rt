//! The stop word: a number that workers mark and look at, so that those may stop whose work no answer needs. It only falls, and is the
//! least number that was marked.
#![tactic(auto)]

pub mod laws;
mod rule;
mod seat;
mod views;
mod word;

pub use seat::StopSeat;
pub use word::{MAX_SEATS, StopWord};
