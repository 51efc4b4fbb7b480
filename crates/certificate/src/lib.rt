//! Certificates: a tree and a derivation for each of its leaves, which together show that a formula has no model. Their text, and
//! the check that needs no solver.
#![tactic(auto)]

mod cert_fault;
mod cert_line;
mod cert_reader;
mod cert_writer;
mod certificate;
pub mod laws;
mod rechecking;
mod section_reader;
mod section_text;
pub mod text_laws;

pub use cert_fault::{CertCause, CertFault};
pub use cert_reader::{read_cert, take_cert};
pub use cert_writer::write_cert;
pub use certificate::{Certificate, Section};
pub use rechecking::recheck;
