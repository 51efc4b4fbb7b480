//! The engines of parts of traces, from bytes to bytes, over any source and sink.
//!
//! Whatever makes up a part: if it has no legal schedule, the whole trace has none. So the choice of operations is untrusted.
#![tactic(auto)]

mod part_engine;
mod part_recheck_engine;

pub use part_engine::run_part;
pub use part_recheck_engine::run_part_recheck;
