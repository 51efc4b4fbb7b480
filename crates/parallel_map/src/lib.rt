//! The results of a function at each item of a list, from as many threads as the caller says.
#![tactic(auto)]

mod joining;
mod mapping;
mod share;

pub use mapping::map_by_workers;

#[cfg(test)]
mod tests;
