//! What a search of cubes is given.

use crate::options::Options;
use std::alloc::Global;

/// What a search of cubes is given, and does not change.
#[derive(Clone, Copy)]
pub struct SearchRun<'a, R, G> {
    /// Where memory is taken.
    pub alloc: Global,
    /// What starts threads.
    pub rt: &'a R,
    /// The limits of the search.
    pub options: &'a Options,
    /// What sees how far it is.
    pub gate: &'a G,
}
