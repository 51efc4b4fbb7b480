//! The solver against formulas of which the answer is known, with the checker and the evaluator that its answers are for, the checker
//! beside a plain one, and contradictions of counting, with the checker that their derivations are for.
#![tactic(auto)]

#[cfg(test)]
mod counting;
#[cfg(test)]
mod expectations;
#[cfg(test)]
mod solving;
