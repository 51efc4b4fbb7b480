//! Lists that lie in the value itself while they are short.
//!
//! They do what this repository needs of `ArrayVec` and `SmallVec`: a crate with one of those in a public type hands its whole public
//! interface on to all crates above it.
#![tactic(auto)]

pub mod inline_list;
pub mod short_list;
