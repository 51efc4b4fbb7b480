//! The engines: those that judge, translate, decode and check proofs, decide traces, check certificates and make parts.

mod certified_verdicts;
mod formula_engines;
mod judging;
mod parts;
mod rechecks;
mod text_runs;
mod verdicts;
mod wanted_runs;
