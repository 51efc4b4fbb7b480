//! Several searches of one formula that share what they learn, in rounds (Hamadi, Jabbour and Sais, "ManySAT: a parallel SAT solver", 2009).
//!
//! - `SeatSearch` goes on with such searches until one has an answer, or all together have used up a budget. It can be asked for some rounds at a time.
//! - `ModelSearch` is another way to look for a model, which takes the job of a seat for a round.
//!
//! A seat is a search with its place among them. A round is a search of a tree whose leaves stand for the seats: the worker that takes a leaf's
//! job runs the seat of the leaf, and answers that the leaf is open. Rounds are counted in conflicts and each seat runs in each of them, so
//! what is found does not depend on how many workers there are. Nothing is proved of an answer but that it keeps to its budget.
#![tactic(auto)]

mod beside;
mod leaves;
mod round;
mod rounds;
mod seat;
mod seats;

pub use beside::ModelSearch;
pub use rounds::SeatSearch;
