//! Makers of clauses over orders, each once on a trace that was worked out by hand, and certificates of such clauses.

mod certificates;
mod sentences;
