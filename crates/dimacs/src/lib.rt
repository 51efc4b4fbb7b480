//! Literals, clauses, cubes, formulas and models, the text of a formula as it is written, and where texts go: sinks, with what
//! contracts alone see of them.
#![tactic(auto)]

mod agreement;
mod assignment;
mod clause;
mod clause_lines;
mod clause_list;
mod cnf_writer;
mod cube;
mod formula;
mod line_buffer;
mod listed_clause;
mod literal;
mod memory_sink;
pub mod model_laws;
mod short_sink;
mod sink;
mod sink_fault;
mod transcript;
mod variable_table;

pub use assignment::Assignment;
pub use clause::{Clause, recall_literals};
pub use clause_lines::ClauseLines;
pub use clause_list::ClauseList;
pub use cnf_writer::{CnfWriter, write_cnf};
pub use cube::{Cube, MAX_CUBE_LITERALS, are_same};
pub use formula::{FirstFalse, Formula, first_false};
pub use listed_clause::ListedClause;
pub use literal::{Lit, MAX_VARIABLE};
pub use memory_sink::MemorySink;
pub use short_sink::ShortSink;
pub use sink::{Failed, Sink, write_whole};
pub use sink_fault::SinkFault;
pub use transcript::{FailureCount, Transcript};
pub use variable_table::VariableTable;
