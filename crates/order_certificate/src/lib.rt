//! Certificates of reasons of logs that the order engine has refuted: what the conflict follows from, back to the log, as lines of reasons and a
//! derivation.
//!
//! Nothing here is believed: who reads a certificate checks it. So nothing is proved of it but that it is safe and comes to an end, and a look
//! past the end of a table reads a fixed value.
#![tactic(auto)]

mod certificate_text;
mod derivation_steps;
mod explanation;
mod hint_list;
mod marked_pairs;
mod numbered_lines;
mod order_certificate;
mod order_facts;
mod pair_reasons;
mod reason_words;
mod replaying;
mod source_words;
mod step_hints;
mod stuck_heads;

pub use order_certificate::{LogNames, NamedPlace, OrderCertificate};
pub use replaying::{certificate_of_conflict, certificate_of_learning, certificate_of_takers};
