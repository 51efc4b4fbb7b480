//! The engines of `vsc`, from bytes to bytes, over any source and sink.
#![tactic(auto)]

mod admitted;
mod cnf_engine;
mod decode_engine;
mod fault;
mod inputs;
mod judge_engine;
pub mod laws;
mod lrat_engine;
mod pieces;
mod reading;
mod recheck_engine;
mod refusal_line;
mod refused_parts;
mod short_source;
mod source;
mod status;
mod verify_engine;

pub use cnf_engine::run_cnf;
pub use decode_engine::run_decode;
pub use fault::Fault;
pub use inputs::{read_three, read_two};
pub use judge_engine::run_judge;
pub use lrat_engine::run_lrat;
pub use reading::{MAX_INPUT_BYTES, ReadFault, read_whole};
pub use recheck_engine::{CertificateSize, recheck_reduced, run_recheck, write_size};
pub use refusal_line::write_fault;
pub use refused_parts::FaultArea;
pub use short_source::ShortSource;
pub use source::Source;
pub use status::{Status, exit_status};
pub use verify_engine::{run_certified_verify, run_verify, status_of};
