//! Clauses over orders of operations, as clauses over variables that are numbered by their first use.
#![tactic(auto)]

mod literal_places;
pub mod order_pair;
pub mod order_variables;
pub mod reason_list;
