//! What a run of the program is given.

use std::alloc::Global;

/// What a run of the program is given beside its words, files and streams, and does not change. The host, whose files change, is passed beside it: a `&mut` field
/// of a struct that is lent cannot be lent on to an engine.
#[derive(Drop)]
pub struct ProgramRun<'a, R, G> {
    /// Where memory is taken.
    pub alloc: Global,
    /// What starts threads.
    pub rt: &'a R,
    /// The gate that shows the progress of a search, if a line asks for it.
    pub progress: &'a G,
    /// Whether standard error is a terminal.
    pub is_terminal: bool,
}
