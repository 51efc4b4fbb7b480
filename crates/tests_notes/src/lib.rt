//! Tests of notes: lines with marks, what is noted of a refusal and of a verdict, and certificates of reasons, which notes retell, on
//! traces that were worked out by hand.
#![tactic(auto)]

#[cfg(test)]
mod expectations;
#[cfg(test)]
mod notes;
#[cfg(test)]
mod reasons;
