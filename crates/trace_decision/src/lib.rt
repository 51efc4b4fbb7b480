//! What is decided of a trace: whether it has a legal schedule, if a search within its limits finds that out, and the report and the
//! certificate of it.
#![tactic(auto)]

mod certifying;
mod decided;
mod deciding;
mod decision;
pub mod guide;
pub mod laws;
mod refutation;
mod reporting;
mod rounds;
mod splitting;
mod whole_search;

pub use certifying::write_certificate;
pub use deciding::decide;
pub use decision::Decision;
pub use refutation::Refutation;
pub use reporting::{line_with_names, report_of};
