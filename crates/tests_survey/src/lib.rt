//! Tests of the engine that decides long traces, with the survey of this program and with surveyors that lie, and of the one that
//! decides many traces of one text.
#![tactic(auto)]

#[cfg(test)]
mod batch;
#[cfg(test)]
mod expectations;
#[cfg(test)]
mod long_traces;
