//! Tests of trees, of calls that no command reaches, of the search of a tree's leaves, of ledgers with answers that are right, wrong,
//! or those of another leaf, and of what workers share.
#![tactic(auto)]

#[cfg(test)]
mod cubes;
#[cfg(test)]
mod expectations;
#[cfg(test)]
mod workers;
