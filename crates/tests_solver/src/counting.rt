//! Contradictions of counting, with the checker that their derivations are for.

mod contradictions;
mod derivations;
mod one_location;
mod wrong_reads;
