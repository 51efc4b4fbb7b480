//! Certificates that were written are accepted where they are checked again: those of traces, and those of the parts of cores.
#![tactic(auto)]

pub mod laws;
