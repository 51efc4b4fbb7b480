//! What a batch is given.

use cube_jobs::Options;
use std::alloc::Global;

/// How the traces of a batch are searched.
#[derive(Clone, Copy)]
pub struct BatchSearch {
    /// How many threads decide traces, each one trace at a time. The program gives the two searches one worker each, since traces are decided side by side.
    pub workers: u32,
    /// How a trace of at most 160 operations is searched.
    pub short: Options,
    /// How a longer one is searched after its survey.
    pub long: Options,
}

/// What a batch is given of one file, and does not change.
#[derive(Drop)]
pub struct BatchRun<'a, R, S, F> {
    /// Where memory is taken.
    pub alloc: Global,
    /// What starts threads.
    pub rt: &'a R,
    /// The file as its lines name it.
    pub file: &'a str,
    /// The form of the lines.
    pub form: &'a F,
    /// How traces are searched.
    pub search: &'a BatchSearch,
    /// What surveys a long trace.
    pub surveyor: &'a S,
}
